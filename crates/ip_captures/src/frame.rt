//! The frames of a capture, and its other blocks.

/// A captured packet with its headers of the link layer, borrowed from the caller's bytes.
#[derive(Clone, Copy, Debug, PartialEq, Eq)]
pub struct Frame<'a> {
    /// The captured bytes.
    pub captured: &'a [u8],
    /// The length of the packet when it was captured, in bytes; `captured` is shorter if it was truncated.
    pub original_len: u32,
    /// The time of capture in nanoseconds since 1970-01-01 00:00 UTC, if it is known.
    pub time: Option<u64>,
    /// The interface that captured the packet: the number of its description in the section; 0 in a classic file.
    pub interface: u32,
    /// The link type, such as 1 for Ethernet.
    pub link_type: u16,
    /// The length of the frame's record or block, in bytes: the next one begins so far after this one.
    pub record_len: usize,
}

/// A block of pcapng without a frame, borrowed from the caller's bytes (draft-ietf-opsawg-pcapng, section 3.1).
#[derive(Clone, Copy, Debug, PartialEq, Eq)]
pub struct Block<'a> {
    /// Its type, in the byte order of its section.
    pub block_type: u32,
    /// The bytes between its two lengths.
    pub body: &'a [u8],
    /// The length of the block, in bytes: the next one begins so far after this one.
    pub record_len: usize,
}
