//! The cause of an extension header's error.
use crate::err::{LenError, ip_auth, ip_exts, ipv4_exts, ipv6_exts};
use std::alloc::AllocError;
use std::io;

/// The cause of an extension header error: the value inside the error.
#[derive(Clone, Copy, Debug)]
pub enum ChainSource<'a> {
    /// The reader failed.
    Io(&'a io::Error),
    /// The vector couldn't grow.
    Memory(&'a AllocError),
    /// There were too few bytes.
    Len(&'a LenError),
    /// The bytes are not a valid authentication header.
    IpAuth(&'a ip_auth::HeaderError),
    /// The bytes are not a valid chain of IPv6 extension headers.
    Ipv6Exts(&'a ipv6_exts::HeaderError),
    /// The bytes are not a valid chain of extension headers of either IP version.
    IpExts(&'a ip_exts::HeaderError),
    /// A walk from the IPv4 header doesn't reach every header.
    Ipv4Walk(&'a ipv4_exts::ExtsWalkError),
    /// A walk from the IPv6 header doesn't reach every header.
    Ipv6Walk(&'a ipv6_exts::ExtsWalkError),
}
