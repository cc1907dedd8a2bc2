//! The frames of a classic capture file whose bytes are all there.
ghost use Rattle.std.specs.Prelude.{◌≡◌, ◌≢◌, ◌≤◌, ◌-◌, length, map, [], IfSome, IfNone};
ghost use Rattle.ip_captures.specs.ClassicRecord.{frame_in, records_in, rest_of, AreLongestRecords};
ghost use Rattle.ip_captures.specs.ClassicNext.{IsNext, reader_at};

use crate::{ClassicCapture, Frame, Next};

/// The frames of the records at the start of some bytes, once and in order, and `None` from then on.
#[derive(Debug, Drop)]
pub struct ClassicFrames<'a> {
    capture: ClassicCapture,
    bytes: &'a [u8],
    rest: &'a [u8],
    pub ghost within: { length rest.now ≤ length bytes.now },
    pub ghost after: { rest_of capture.limit capture.header rest.now ≡ rest_of capture.limit capture.header bytes.now },
}

impl ClassicCapture {
    ghost use Rattle.ip_captures.specs.ClassicFrames.{capture, input, frames_left};

    /// Returns the frames of the longest list of records at the start of `bytes`, which are those from the next record on.
    pub fn frames<'a>(&self, bytes: &'a [u8]) -> ClassicFrames<'a>
        ensures frames { frames_left result ≡ map (frame_in self.now.header) (records_in self.now.limit self.now.header bytes.now) }
        ensures longest { AreLongestRecords self.now.limit self.now.header bytes.now
            (records_in self.now.limit self.now.header bytes.now) (rest_of self.now.limit self.now.header bytes.now) }
        ensures capture { capture result ≡ self.now }
        ensures input { input result ≡ bytes.now }
    {
        ClassicFrames {
            capture: *self,
            bytes,
            rest: bytes,
        }
    }

    /// Returns the reader as it is so many bytes further on.
    #[inline(always)]
    fn moved_by(&self, len: usize) -> ClassicCapture
        ensures { result ≡ reader_at self.now len }
    {
        ClassicCapture {
            offset: self.offset.saturating_add(len as u64),
            ..*self
        }
    }
}

impl<'a> ClassicFrames<'a> {
    ghost use Rattle.ip_captures.specs.ClassicFrames.{capture, input, bytes_left, frames_left};

    /// Returns what is next: the frame that `next` will return, or why there is none.
    #[inline(always)]
    fn peek(&self) -> Next<'a>
        ensures { IsNext (reader_at (capture self.now) (length (input self.now) - length (bytes_left self.now)))
            (bytes_left self.now) result }
    {
        let mut capture = self.capture.moved_by(self.bytes.len() - self.rest.len());
        capture.next(self.rest)
    }

    /// Returns the bytes after the last frame returned, and why no record begins them, once no frame is left. Returns
    /// `None` before.
    pub fn end(&self) -> Option<(&'a [u8], Next<'a>)>
        ensures before { IfNone result (frames_left self.now ≢ []) }
        ensures last { IfSome result (λ e. frames_left self.now ≡ []) }
        ensures rest { IfSome result (λ e. AreLongestRecords (capture self.now).limit (capture self.now).header (input self.now)
            (records_in (capture self.now).limit (capture self.now).header (input self.now)) e.0.now) }
        ensures why { IfSome result (λ e. IsNext (reader_at (capture self.now) (length (input self.now) - length e.0.now)) e.0.now e.1) }
    {
        match self.peek() {
            Next::Frame(_) => None,
            why => Some((self.rest, why)),
        }
    }
}

impl<'a> Iterator for ClassicFrames<'a> {
    type Item = Frame<'a>;

    ghost use Rattle.std.specs.Iterator.{YieldsFirstBy, item_count};
    ghost use Rattle.ip_captures.specs.Frame.{contents};
    ghost use Rattle.ip_captures.specs.ClassicFrames.{frames_left};

    ghost next_gives = { YieldsFirstBy contents frames_left };

    ghost remaining = { item_count frames_left };

    #[inline]
    fn next(&mut self) -> Option<Frame<'a>> {
        let Next::Frame(frame) = self.peek() else {
            return None;
        };
        self.rest = self.rest.split_at(frame.record_len).1;
        Some(frame)
    }
}
