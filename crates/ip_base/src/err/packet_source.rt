//! The cause of a packet's error.
use crate::err::{LenError, ip, ip_auth, ipv4, ipv6, ipv6_exts};

/// The cause of a packet's error: the value inside the error.
#[derive(Clone, Copy, Debug)]
pub enum PacketSource<'a> {
    /// There were too few bytes.
    Len(&'a LenError),
    /// The bytes are not a valid authentication header.
    IpAuth(&'a ip_auth::HeaderError),
    /// The bytes are not a valid chain of IPv6 extension headers.
    Ipv6Exts(&'a ipv6_exts::HeaderError),
    /// The first byte doesn't start a base header of either IP version.
    Ip(&'a ip::HeaderError),
    /// The bytes of a packet's headers are malformed.
    IpHeaders(&'a ip::HeadersError),
    /// The bytes are not a valid IPv4 base header.
    Ipv4Header(&'a ipv4::HeaderError),
    /// The bytes are not a valid IPv6 base header.
    Ipv6Header(&'a ipv6::HeaderError),
}
