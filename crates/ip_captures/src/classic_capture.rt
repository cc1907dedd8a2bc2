//! A reader of classic capture files.
ghost use Rattle.std.specs.Prelude.{◌≡◌, ◌≤◌, ◌+◌, ◌*◌, ◌<◌, length, MatchOption, IfOk, IfErr};
ghost use Rattle.ip_captures.specs.ClassicHeader.{IsFileHeader, IsHeaderError};
ghost use Rattle.ip_captures.specs.ClassicRecord.{header_len, nanoseconds, frame_in, seconds, fraction};
ghost use Rattle.ip_captures.specs.ClassicNext.{IsNext, reader_after};
ghost use Rattle.ip_captures.specs.Frame.{contents};

use crate::{CaptureError, ClassicHeader, Frame, Next, Variant};

impl Variant {
    /// Returns the length of the header of a record, in bytes.
    #[inline(always)]
    pub(crate) fn record_header_len(self) -> usize
        ensures { result ≡ header_len self }
    {
        match self {
            Variant::Microseconds | Variant::Nanoseconds => 16,
            Variant::Modified => 24,
        }
    }

    /// Returns how many nanoseconds the second number of a record counts in.
    #[inline(always)]
    pub(crate) fn nanoseconds(self) -> u64
        ensures value { result ≡ nanoseconds self }
        ensures few { result ≤ 1000 }
        ensures some { 0 < result }
    {
        match self {
            Variant::Microseconds | Variant::Modified => 1000,
            Variant::Nanoseconds => 1,
        }
    }
}

impl ClassicHeader {
    /// Returns the time of the record at the start of `bytes`, in nanoseconds.
    #[inline(always)]
    fn time(&self, bytes: &[u8]) -> u64
        requires { 16 ≤ length bytes.now }
        ensures { result ≡ seconds self.now bytes.now * 1000000000 + fraction self.now bytes.now * nanoseconds self.now.variant }
    {
        let seconds = u64::from(self.byte_order.u32_at(bytes, 0));
        let fraction = u64::from(self.byte_order.u32_at(bytes, 4));
        seconds * 1_000_000_000 + fraction * self.variant.nanoseconds()
    }

    /// Returns the frame of the record that is all of `bytes`.
    #[inline(always)]
    fn frame<'a>(&self, bytes: &'a [u8]) -> Frame<'a>
        requires { header_len self.now.variant ≤ length bytes.now }
        ensures { contents result ≡ frame_in self.now bytes.now }
    {
        Frame {
            captured: &bytes[self.variant.record_header_len()..],
            original_len: self.byte_order.u32_at(bytes, 12),
            time: Some(self.time(bytes)),
            interface: 0,
            link_type: self.link_type,
            record_len: bytes.len(),
        }
    }
}

/// A reader of a classic capture file, after its file header.
#[derive(Clone, Copy, Debug, PartialEq, Eq)]
pub struct ClassicCapture {
    /// The file header.
    pub header: ClassicHeader,
    /// The greatest number of captured bytes that a record may state.
    pub limit: u32,
    /// The offset of the next record, in bytes from the start of the file.
    pub offset: u64,
}

impl ClassicCapture {
    /// Parses the file header at the start of `bytes`, and returns the reader after it: the first record is at byte 24.
    /// Records may state at most `limit` captured bytes. Returns `None` if there are fewer than 24 bytes, and an error if
    /// the first 4 aren't a magic number of classic files, otherwise if the major version isn't 2.
    pub fn begin(bytes: &[u8], limit: u32) -> Result<Option<ClassicCapture>, CaptureError>
        ensures header { IfOk result (λ c. MatchOption c (length bytes.now < 24) (λ c. IsFileHeader bytes.now c.header
            × (c.limit ≡ limit) × (c.offset ≡ 24))) }
        ensures error { IfErr result (λ e. (24 ≤ length bytes.now) × IsHeaderError bytes.now e) }
    {
        match ClassicHeader::parse(bytes)? {
            Some(header) => Ok(Some(ClassicCapture {
                header,
                limit,
                offset: 24,
            })),
            None => Ok(None),
        }
    }

    /// Returns what comes next, and moves past it if it is a frame. `bytes` are those from the next record on: as many as
    /// there are, or as the caller has read so far. More bytes change no frame and no error.
    #[inline]
    #[tactic(auto, using(std::proofs::lemmas::List::nil_from_length))]
    pub fn next<'a>(&mut self, bytes: &'a [u8]) -> Next<'a>
        ensures next { IsNext self.old bytes.now result }
        ensures after { self.new ≡ reader_after self.old result }
    {
        let header_len = self.header.variant.record_header_len();
        if bytes.is_empty() {
            return Next::Ended;
        }
        if bytes.len() < header_len {
            return Next::Needs(header_len);
        }
        let captured_len = self.header.byte_order.u32_at(bytes, 8);
        if captured_len > self.limit {
            return Next::Error(CaptureError::LongRecord {
                offset: self.offset,
                captured_len,
                limit: self.limit,
            });
        }
        let record_len = header_len + captured_len as usize;
        if bytes.len() < record_len {
            return Next::Needs(record_len);
        }
        let frame = self.header.frame(&bytes[..record_len]);
        self.offset = self.offset.saturating_add(record_len as u64);
        Next::Frame(frame)
    }
}
