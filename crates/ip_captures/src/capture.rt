//! A capture file of either form.
ghost use Rattle.std.specs.Prelude.{◌≡◌, ◌≢◌, ◌<◌, ◌≤◌, length, MatchOption, IfOk, IfErr};
ghost use Rattle.ip_captures.specs.Numbers.{number_at};
ghost use Rattle.ip_captures.specs.ClassicHeader.{IsHeaderError};
ghost use Rattle.ip_captures.specs.Capture.{IsBegun, IsNextIn, IsAfter, offset_in_capture};

use crate::{
    ByteOrder, CaptureError, ClassicCapture, ClassicHeader, Interface, Next, PcapngCapture,
};

/// A reader of a capture file of either form.
#[derive(Debug, Drop)]
pub enum Capture<'m> {
    /// A classic file (draft-ietf-opsawg-pcap).
    Classic(ClassicCapture),
    /// A pcapng file (draft-ietf-opsawg-pcapng).
    Pcapng(PcapngCapture<'m>),
}

impl<'m> Capture<'m> {
    /// Returns the reader of the capture that begins with `bytes`; `offset` says where its first record or block is. Records
    /// may state at most `limit` captured bytes, blocks have at most so many, and a section of pcapng describes at most
    /// as many interfaces as there are places. Returns `None` if there are fewer than 24 bytes, and an error if they begin
    /// no capture.
    pub fn begin(
        bytes: &[u8],
        limit: u32,
        interfaces: &'m mut [Interface],
    ) -> Result<Option<Capture<'m>>, CaptureError>
        ensures begun { IfOk result (λ r. MatchOption r (length bytes.now < 24) (λ c. (24 ≤ length bytes.now)
            × IsBegun bytes.now limit (length interfaces.old) c)) }
        ensures error { IfErr result (λ e. (24 ≤ length bytes.now) × IsHeaderError bytes.now e
            × (number_at ByteOrder.LittleEndian bytes.now 0 ≢ 0x0a0d_0d0a)) }
    {
        if bytes.len() < ClassicHeader::LEN {
            return Ok(None);
        }
        if ByteOrder::LittleEndian.u32_at(bytes, 0) == 0x0a0d_0d0a {
            let capture = PcapngCapture::new(limit, interfaces);
            return Ok(Some(Capture::Pcapng(capture)));
        }
        match ClassicCapture::begin(bytes, limit)? {
            Some(capture) => Ok(Some(Capture::Classic(capture))),
            None => Ok(None),
        }
    }

    /// Returns the offset of the next record or block, in bytes from the start of the capture.
    pub fn offset(&self) -> u64
        ensures { result ≡ offset_in_capture self.now }
    {
        match self {
            Capture::Classic(capture) => capture.offset,
            Capture::Pcapng(capture) => capture.offset(),
        }
    }

    /// Returns what comes next, and moves past it if it is a frame or another block. `bytes` are those from the next record
    /// or block on: as many as there are, or as the caller has read so far. More bytes change no frame and no error.
    #[inline]
    pub fn next<'a>(&mut self, bytes: &'a [u8]) -> Next<'a>
        ensures next { IsNextIn self.old bytes.now result }
        ensures after { IsAfter self.old bytes.now result self.new }
    {
        match self {
            Capture::Classic(capture) => capture.next(bytes),
            Capture::Pcapng(capture) => capture.next(bytes),
        }
    }
}
