//! Values that several tests use.
use etherparse_ip::LenSource;
use etherparse_ip::err::{Layer, LenError, ip_auth};
use std::io;
use std::io::ErrorKind;

/// Returns the error of no byte where a header in the uniform format (RFC 6564) needs 8.
pub(crate) fn short() -> LenError {
    LenError {
        required_len: 8,
        len: 0,
        len_source: LenSource::Slice,
        layer: Layer::Ipv6ExtHeader,
        layer_start_offset: 8,
    }
}

/// The text of `short`.
pub(crate) const SHORT: &str =
    "not enough bytes for Ipv6ExtHeader at offset 8: 8 needed, 0 there by Slice";

/// Returns the error of an authentication header of length 0.
pub(crate) fn zero() -> ip_auth::HeaderError {
    ip_auth::HeaderError::ZeroPayloadLen
}

/// The text of `zero`.
pub(crate) const ZERO: &str =
    "IP Authentication Header Error: Payload Length too small (0). The payload length must be at least 1.";

/// Returns the error of a reader that isn't allowed to read.
pub(crate) fn denied() -> io::Error {
    io::Error::from(ErrorKind::PermissionDenied)
}
