//! The length of an IPv6 header (RFC 8200, section 3).
/// The IPv6 base header (RFC 8200, section 3). Holds only the header's length.
pub struct Ipv6Header {}

impl Ipv6Header {
    /// The length of a header, in bytes.
    pub const LEN: usize = 40;
}
