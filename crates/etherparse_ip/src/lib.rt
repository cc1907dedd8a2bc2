//! Packets of IPv4 (RFC 791) and IPv6 (RFC 8200) that must be whole. A packet borrows the caller's bytes and has a
//! base header, extension headers and a payload, which ends at the packet's length. The calls of this crate copy
//! nothing and allocate nothing. The items of the crates below are exported here too, under the paths that they have
//! in etherparse.
//!
//! | To parse | Call |
//! |---|---|
//! | a packet of either version | `IpSlice::from_slice` |
//! | a packet of one version | `Ipv4Slice::from_slice`, `Ipv6Slice::from_slice` |
//! | an IPv6 packet that may be truncated | `Ipv6Slice::from_slice_lax`: the strict parse's result, value or error, except for a slice with a good base header and fewer bytes than this states |
//! | any packet, also truncated, faulty or a fragment | `ip_dissect::dissect` |
//!
//! A parse is Ok exactly if no test of the packet fails, and otherwise reports the first that does.
//! `IpSlice::from_slice` makes its own tests first, and then is the strict parse of the version in the first byte.
//! Bytes start with at most one packet (the law `one_packet`).
//!
//! `reaches_whole` in `check_uses/src/packets.rt` is a caller without a proof file.
#![tactic(auto)]

pub mod err;
mod ip_slice;
mod ipv4_slice;
mod ipv6_slice;
mod len_sources;
mod packet_laws;

pub use ip_base::{
    IpFragOffset, IpNumber, IpPayloadSlice, Ipv4Header, Ipv4HeaderSlice, Ipv6Header,
    Ipv6HeaderSlice, LenSource, io, ip_number,
};
pub use ip_ext_chains::{
    Ipv4Extensions, Ipv4ExtensionsSlice, Ipv6ExtensionSlice, Ipv6ExtensionSliceIter,
    Ipv6Extensions, Ipv6ExtensionsCursor, Ipv6ExtensionsRuns, Ipv6ExtensionsSlice,
    Ipv6RoutingExtensions, clear_chain, fitting_headers,
};
pub use ip_ext_headers::{
    IPv6AuthenticationHeader, IpAuthHeader, IpAuthHeaderSlice, IpAuthenticationHeader,
    IpAuthenticationHeaderSlice, Ipv6FragmentHeader, Ipv6FragmentHeaderSlice, Ipv6RawExtHeader,
    Ipv6RawExtHeaderSlice, Ipv6RawExtensionHeader, Ipv6RawExtensionHeaderSlice,
};
pub use ip_slice::IpSlice;
pub use ipv4_slice::Ipv4Slice;
pub use ipv6_slice::Ipv6Slice;
pub use packet_laws::one_packet;
