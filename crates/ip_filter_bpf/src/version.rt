//! The versions of packets.

/// The version of a packet by its base header.
#[derive(Clone, Copy)]
pub(crate) enum Version {
    /// The bytes have no base header.
    None,
    Ipv4,
    Ipv6,
}
