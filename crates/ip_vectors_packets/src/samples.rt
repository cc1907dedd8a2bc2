//! Packets and errors that several tests use.
use etherparse_ip::LenSource;
use etherparse_ip::err::{Layer, LenError};
use std::alloc::{AllocError, Global};

/// Returns an IPv4 packet from 10.0.0.1 to 10.0.0.2; `after` starts with its options.
pub(crate) fn ipv4_bytes(
    alloc: Global,
    first: u8,
    total_len: u16,
    fragment: [u8; 2],
    protocol: u8,
    after: &[u8],
) -> Result<Vec<u8>, AllocError> {
    let [high, low] = total_len.to_be_bytes();
    let [flags, offset] = fragment;
    let mut bytes = Vec::from_array(
        alloc,
        [
            first, 0, high, low, 0, 0, flags, offset, 64, protocol, 0, 0, 10, 0, 0, 1, 10, 0, 0, 2,
        ],
    )?;
    bytes.extend_from_slice(after)?;
    Ok(bytes)
}

/// Returns an IPv6 packet from 2001:db8::1 to 2001:db8::2.
pub(crate) fn ipv6_bytes(
    alloc: Global,
    payload_length: u16,
    next_header: u8,
    after: &[u8],
) -> Result<Vec<u8>, AllocError> {
    let [high, low] = payload_length.to_be_bytes();
    let mut bytes = Vec::from_array(alloc, [0x60, 0, 0, 0, high, low, next_header, 64])?;
    for last in [1, 2] {
        bytes.extend_from_slice(&[0x20, 1, 0x0d, 0xb8, 0, 0, 0, 0, 0, 0, 0, 0, 0, 0, 0, last])?;
    }
    bytes.extend_from_slice(after)?;
    Ok(bytes)
}

/// Returns a length error.
pub(crate) fn len_error(
    required_len: usize,
    len: usize,
    len_source: LenSource,
    layer: Layer,
) -> LenError {
    len_error_at(required_len, len, len_source, layer, 0)
}

/// Returns a length error at this offset.
pub(crate) fn len_error_at(
    required_len: usize,
    len: usize,
    len_source: LenSource,
    layer: Layer,
    layer_start_offset: usize,
) -> LenError {
    LenError {
        required_len,
        len,
        len_source,
        layer,
        layer_start_offset,
    }
}
