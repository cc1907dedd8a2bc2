//! What comes next in a capture.
use crate::{Block, CaptureError, Frame};

/// What comes next in a capture.
#[derive(Clone, Copy, Debug, PartialEq, Eq)]
pub enum Next<'a> {
    /// A frame. The bytes after its `record_len` are those to give next.
    Frame(Frame<'a>),
    /// A block of pcapng without a frame. The bytes after its `record_len` are those to give next.
    Block(Block<'a>),
    /// Nothing yet: the capture is truncated here, unless so many bytes are there from this place on.
    Needs(usize),
    /// Nothing: no bytes are left.
    Ended,
    /// Nothing: the capture can't be read on from here.
    Error(CaptureError),
}
