//! Errors, added to a digest with what they report.
use crate::digest::Digest;
use etherparse_ip::err::ip::{HeaderError as BaseError, HeadersError, SliceError};
use etherparse_ip::err::ipv6_exts::{HeaderError, HeaderReadError, HeaderSliceError};
use etherparse_ip::err::{Layer, LenError};

/// Adds the lengths, the offset, the layer and the length source.
fn add_len_error(digest: &mut Digest, error: &LenError) {
    let layer = usize::from(error.layer as u8);
    let source = usize::from(error.len_source as u8);
    digest.add_four([
        error.required_len,
        error.len,
        error.layer_start_offset,
        layer,
    ]);
    digest.add_len(source);
}

/// Adds what is wrong in an IPv6 extension header.
fn add_content(digest: &mut Digest, error: &HeaderError) {
    match error {
        HeaderError::HopByHopNotAtStart => digest.add(257),
        HeaderError::IpAuth(_) => digest.add(258),
    }
}

/// Adds an error of an IPv6 chain.
pub fn add_chain_error(digest: &mut Digest, error: &HeaderSliceError) {
    match error {
        HeaderSliceError::Len(error) => add_len_error(digest, error),
        HeaderSliceError::Content(error) => add_content(digest, error),
    }
}

/// Adds the error of a chain and its layer, or that there is none.
pub fn add_fault(digest: &mut Digest, fault: &Option<(HeaderSliceError, Layer)>) {
    match fault {
        Some((error, layer)) => {
            add_chain_error(digest, error);
            digest.add(u64::from(*layer as u8));
        }
        None => digest.add(256),
    }
}

/// Adds an error of a chain that was read.
pub fn add_read_error(digest: &mut Digest, error: &HeaderReadError) {
    match error {
        HeaderReadError::Io(_) => digest.add(259),
        HeaderReadError::Content(error) => add_content(digest, error),
    }
}

/// Adds an error of a packet.
pub fn add_packet_error(digest: &mut Digest, error: &SliceError) {
    match error {
        SliceError::Len(error) => add_len_error(digest, error),
        SliceError::IpHeaders(
            HeadersError::Ip(BaseError::UnsupportedIpVersion { version_number }),
        ) => {
            digest.add(512 + u64::from(*version_number));
        }
        SliceError::IpHeaders(
            HeadersError::Ip(BaseError::Ipv4HeaderLengthSmallerThanHeader { ihl }),
        ) => digest.add(1024 + u64::from(*ihl)),
        SliceError::IpHeaders(HeadersError::Ipv4Ext(_)) => digest.add(260),
        SliceError::IpHeaders(HeadersError::Ipv6Ext(error)) => add_content(digest, error),
    }
}

/// Adds a layer, or that there is none.
pub fn add_layer(digest: &mut Digest, layer: &Option<Layer>) {
    match layer {
        Some(layer) => digest.add(u64::from(*layer as u8)),
        None => digest.add(256),
    }
}

/// Adds the error of a truncated header.
pub fn add_truncated(digest: &mut Digest, error: &LenError, header: &Option<Layer>) {
    add_len_error(digest, error);
    add_layer(digest, header);
}
