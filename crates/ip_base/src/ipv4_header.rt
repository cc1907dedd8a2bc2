//! The length of an IPv4 header without options (RFC 791, section 3.1).
/// The IPv4 base header (RFC 791, section 3.1). Holds only the header's length.
pub struct Ipv4Header {}

impl Ipv4Header {
    /// The length of a header without options, in bytes.
    pub const MIN_LEN: usize = 20;
}
