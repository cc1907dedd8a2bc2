//! The headers of classic capture files, written.
ghost use Rattle.std.specs.Prelude.{◌≡◌, ◌++◌, ℕ, length, slice_index, Some, None, IfSome};
ghost use Rattle.ip_captures.specs.Numbers.{number_at, short_number_at};
ghost use Rattle.ip_captures.specs.ClassicHeader.{IsFileHeader, magic_number};
ghost use Rattle.ip_captures.specs.ClassicRecord.{IsRecord, frame_in};
ghost use Rattle.ip_captures.specs.ClassicWriter.{CanHave, kept};

use crate::{ByteOrder, ClassicHeader, Frame, Variant};

impl ByteOrder {
    /// Returns the 2 bytes of a number.
    #[inline]
    pub(crate) fn short_bytes_of(self, number: u16) -> [u8; 2]
        ensures { short_number_at self result 0 ≡ number }
    {
        match self {
            ByteOrder::LittleEndian => number.to_le_bytes(),
            ByteOrder::BigEndian => number.to_be_bytes(),
        }
    }

    /// Returns the 4 bytes of a number.
    #[inline]
    pub(crate) fn bytes_of(self, number: u32) -> [u8; 4]
        ensures { number_at self result 0 ≡ number }
    {
        match self {
            ByteOrder::LittleEndian => number.to_le_bytes(),
            ByteOrder::BigEndian => number.to_be_bytes(),
        }
    }

    /// Returns the 16 bytes of four numbers.
    #[inline]
    fn bytes_of_four(self, numbers: [u32; 4]) -> [u8; 16]
        ensures first { number_at self result 0 ≡ slice_index numbers 0 }
        ensures second { number_at self result 4 ≡ slice_index numbers 1 }
        ensures third { number_at self result 8 ≡ slice_index numbers 2 }
        ensures fourth { number_at self result 12 ≡ slice_index numbers 3 }
    {
        let a = self.bytes_of(numbers[0]);
        let b = self.bytes_of(numbers[1]);
        let c = self.bytes_of(numbers[2]);
        let d = self.bytes_of(numbers[3]);
        [
            a[0], a[1], a[2], a[3], b[0], b[1], b[2], b[3], c[0], c[1], c[2], c[3], d[0], d[1],
            d[2], d[3],
        ]
    }
}

impl Variant {
    /// Returns the number that begins the file.
    fn magic_number(self) -> u32
        ensures { result ≡ magic_number self }
    {
        match self {
            Variant::Microseconds => 0xa1b2_c3d4,
            Variant::Nanoseconds => 0xa1b2_3c4d,
            Variant::Modified => 0xa1b2_cd34,
        }
    }
}

impl ClassicHeader {
    /// Returns the 24 bytes of the file header, of version 2.4 (draft-ietf-opsawg-pcap, section 4).
    pub fn to_bytes(&self) -> [u8; 24]
        ensures { IsFileHeader result self.now }
    {
        self.numbers(u32::from(self.link_type))
    }

    /// Returns the numbers of the file header, the last one of which is given.
    fn numbers(&self, last: u32) -> [u8; 24]
        ensures magic { number_at self.now.byte_order result 0 ≡ magic_number self.now.variant }
        ensures version { short_number_at self.now.byte_order result 4 ≡ 2 }
        ensures snap_len { number_at self.now.byte_order result 16 ≡ self.now.snap_len }
        ensures last { number_at self.now.byte_order result 20 ≡ last }
    {
        let a = self.byte_order.bytes_of(self.variant.magic_number());
        let b = self.byte_order.short_bytes_of(2);
        let c = self.byte_order.short_bytes_of(4);
        let d = self.byte_order.bytes_of(self.snap_len);
        let e = self.byte_order.bytes_of(last);
        [
            a[0], a[1], a[2], a[3], b[0], b[1], c[0], c[1], 0, 0, 0, 0, 0, 0, 0, 0, d[0], d[1],
            d[2], d[3], e[0], e[1], e[2], e[3],
        ]
    }

    /// Returns the 16 bytes that precede a frame's captured bytes in its record (draft-ietf-opsawg-pcap, section 5). Times are
    /// rounded down to the file's units, and the file has one link type and one interface. Returns `None` if the file is of
    /// the modified format, or if the frame has no time, one of 2^32 seconds or more, or 4 GiB of captured bytes or more.
    pub fn record_header(&self, frame: &Frame<'_>) -> Option<[u8; 16]>
        ensures record { IfSome result (λ b. IsRecord (length frame.now.captured.now) self.now (b ++ frame.now.captured.now)) }
        ensures again { IfSome result (λ b. (t : ℕ) × (frame.now.time ≡ Some t)
            × (frame_in self.now (b ++ frame.now.captured.now) ≡ kept self.now frame.now t)) }
        ensures none { result ≡ None → (t : ℕ) → frame.now.time ≡ Some t → ¬ CanHave self.now t frame.now.captured.now }
    {
        let time = frame.time?;
        if self.variant == Variant::Modified {
            return None;
        }
        let seconds = u32::try_from(time / 1_000_000_000).ok()?;
        let captured_len = u32::try_from(frame.captured.len()).ok()?;
        let fraction = (time % 1_000_000_000 / self.variant.nanoseconds()) as u32;
        let numbers = [seconds, fraction, captured_len, frame.original_len];
        Some(self.byte_order.bytes_of_four(numbers))
    }
}
