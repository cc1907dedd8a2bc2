//! What comes next in a capture as plain numbers, for C.
ghost use Rattle.std.specs.Prelude.{◌≡◌};
ghost use Rattle.ip_captures.specs.RecordFields.{record_fields, frame_fields, no_record};

use crate::{CaptureErrorFields, Frame, Next};

/// What comes next in a capture, as `Next`, in plain numbers. Numbers that don't apply are 0.
#[repr(C)]
#[derive(Clone, Copy, Debug, PartialEq, Eq)]
pub struct RecordFields {
    /// Where the captured bytes of a frame or the body of another block begin, in bytes from the start of the record or block.
    pub offset: usize,
    /// How many captured bytes or bytes of the body there are.
    pub len: usize,
    /// The length of the record or block, in bytes.
    pub record_len: usize,
    /// How many bytes have to be there.
    pub needed: usize,
    /// The time of capture in nanoseconds since 1970-01-01 00:00 UTC.
    pub time: u64,
    /// The error.
    pub error: CaptureErrorFields,
    /// The length of the packet when it was captured, in bytes.
    pub original_len: u32,
    /// The number of the interface in the section.
    pub interface: u32,
    /// The type of a block without a frame.
    pub block_type: u32,
    /// The link type.
    pub link_type: u16,
    /// 1 if the time is known.
    pub has_time: u8,
    /// What comes next: a frame 0, another block 1, nothing yet 2, no bytes 3, an error 4.
    pub kind: u8,
}

impl RecordFields {
    /// Returns the fields of no record, with what comes next and an error.
    #[inline(always)]
    fn none(kind: u8, needed: usize, error: CaptureErrorFields) -> RecordFields
        ensures { result ≡ no_record kind needed error }
    {
        RecordFields {
            offset: 0,
            len: 0,
            record_len: 0,
            needed,
            time: 0,
            error,
            original_len: 0,
            interface: 0,
            block_type: 0,
            link_type: 0,
            has_time: 0,
            kind,
        }
    }

    /// Returns the fields of a frame whose captured bytes begin at an offset of its record or block.
    #[inline(always)]
    fn of_frame(offset: usize, frame: &Frame<'_>) -> RecordFields
        ensures { result ≡ frame_fields offset frame.now }
    {
        RecordFields {
            offset,
            len: frame.captured.len(),
            record_len: frame.record_len,
            needed: 0,
            time: frame.time.unwrap_or(0),
            error: CaptureErrorFields::none(),
            original_len: frame.original_len,
            interface: frame.interface,
            block_type: 0,
            link_type: frame.link_type,
            has_time: u8::from(frame.time.is_some()),
            kind: 0,
        }
    }

    /// Returns the fields of what comes next, where the captured bytes of a frame begin at an offset of its record or block.
    #[inline(always)]
    pub(crate) fn of(offset: usize, next: &Next<'_>) -> RecordFields
        ensures { result ≡ record_fields offset next.now }
    {
        match next {
            Next::Frame(frame) => Self::of_frame(offset, frame),
            Next::Block(block) => RecordFields {
                offset: 8,
                len: block.body.len(),
                record_len: block.record_len,
                block_type: block.block_type,
                ..Self::none(1, 0, CaptureErrorFields::none())
            },
            Next::Needs(needed) => Self::none(2, *needed, CaptureErrorFields::none()),
            Next::Ended => Self::none(3, 0, CaptureErrorFields::none()),
            Next::Error(error) => Self::none(4, 0, CaptureErrorFields::of(*error)),
        }
    }
}
