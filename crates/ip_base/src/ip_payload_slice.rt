//! The payload of a packet, borrowed.
use crate::{IpNumber, LenSource};

/// The payload of an IP packet, after its extension headers, borrowed from the caller's bytes.
#[derive(Clone, Debug, PartialEq, Eq, Drop)]
pub struct IpPayloadSlice<'a> {
    /// The payload's protocol number.
    pub ip_number: IpNumber,
    /// Whether the payload is a fragment.
    pub fragmented: bool,
    /// The source of the payload's length.
    pub len_source: LenSource,
    /// The payload's bytes.
    pub payload: &'a [u8],
}
