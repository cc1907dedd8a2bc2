//! Packets and their errors.
use crate::digests::chains::{len_source_code, of_auth, of_bytes, of_content, of_len_error, with};
use etherparse_ip::err::ip::{HeaderError, HeadersError, SliceError};
use etherparse_ip::err::{ip_auth, ipv4, ipv6};
use etherparse_ip::{IpPayloadSlice, IpSlice, Ipv4Slice, Ipv6Slice};
use std::net::{Ipv4Addr, Ipv6Addr};

/// Returns the digest of a packet's error.
#[inline(never)]
pub fn of_ip_fault(fault: &SliceError) -> u64 {
    match fault {
        SliceError::Len(fault) => of_len_error(fault),
        SliceError::IpHeaders(HeadersError::Ip(fault)) => match fault {
            HeaderError::UnsupportedIpVersion { version_number } => with(
                3,
                u64::from(*version_number),
            ),
            HeaderError::Ipv4HeaderLengthSmallerThanHeader { ihl } => with(4, u64::from(*ihl)),
        },
        SliceError::IpHeaders(HeadersError::Ipv4Ext(ip_auth::HeaderError::ZeroPayloadLen)) => 2,
        SliceError::IpHeaders(HeadersError::Ipv6Ext(fault)) => of_content(fault),
    }
}

/// Returns the digest of an IPv4 packet's error.
#[inline(never)]
pub fn of_ipv4_fault(fault: &ipv4::SliceError) -> u64 {
    match fault {
        ipv4::SliceError::Len(fault) => of_len_error(fault),
        ipv4::SliceError::Header(fault) => match fault {
            ipv4::HeaderError::UnexpectedVersion { version_number } => with(
                3,
                u64::from(*version_number),
            ),
            ipv4::HeaderError::HeaderLengthSmallerThanHeader { ihl } => with(4, u64::from(*ihl)),
        },
        ipv4::SliceError::Exts(ip_auth::HeaderError::ZeroPayloadLen) => 2,
    }
}

/// Returns the digest of an IPv6 packet's error.
#[inline(never)]
pub fn of_ipv6_fault(fault: &ipv6::SliceError) -> u64 {
    match fault {
        ipv6::SliceError::Len(fault) => of_len_error(fault),
        ipv6::SliceError::Header(ipv6::HeaderError::UnexpectedVersion { version_number }) => {
            with(3, u64::from(*version_number))
        }
        ipv6::SliceError::Exts(fault) => of_content(fault),
    }
}

/// Returns the digest of every part of a packet.
#[inline(never)]
pub fn of_ip(packet: &IpSlice<'_>) -> u64 {
    match packet {
        IpSlice::Ipv4(packet) => of_ipv4(packet),
        IpSlice::Ipv6(packet) => of_ipv6(packet),
    }
}

/// Returns the digest of every part of an IPv4 packet.
#[inline(never)]
pub fn of_ipv4(packet: &Ipv4Slice<'_>) -> u64 {
    let header = packet.header();
    let ends = with(
        of_ipv4_addr(header.source_addr()),
        of_ipv4_addr(header.destination_addr()),
    );
    let exts = match &packet.extensions().auth {
        Some(header) => of_auth(header),
        None => 1,
    };
    let headers = with(with(of_bytes(header.slice()), ends), exts);
    with(headers, of_payload(packet.payload()))
}

/// Returns the digest of every part of an IPv6 packet.
#[inline(never)]
pub fn of_ipv6(packet: &Ipv6Slice<'_>) -> u64 {
    let header = packet.header();
    let ends = with(
        of_ipv6_addr(header.source_addr()),
        of_ipv6_addr(header.destination_addr()),
    );
    let exts = packet.extensions();
    let first = match exts.first_header() {
        Some(first) => u64::from(first.0),
        None => 256,
    };
    let chain = with(first, of_bytes(exts.slice()));
    let headers = with(with(of_bytes(header.slice()), ends), chain);
    with(headers, of_payload(packet.payload()))
}

/// Returns the digest of an IPv4 address: its first and last byte.
fn of_ipv4_addr(address: Ipv4Addr) -> u64 {
    let [first, _, _, last] = address.octets();
    with(u64::from(first), u64::from(last))
}

/// Returns the digest of an IPv6 address: its first and last byte.
fn of_ipv6_addr(address: Ipv6Addr) -> u64 {
    let octets = address.octets();
    with(u64::from(octets[0]), u64::from(octets[15]))
}

/// Returns the digest of every part of a payload.
fn of_payload(payload: &IpPayloadSlice<'_>) -> u64 {
    let kind = with(
        u64::from(payload.ip_number.0),
        u64::from(payload.fragmented),
    );
    let source = u64::from(len_source_code(&payload.len_source));
    with(with(kind, source), of_bytes(payload.payload))
}
