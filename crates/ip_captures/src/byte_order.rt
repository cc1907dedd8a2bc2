//! The order of the bytes of a number.
ghost use Rattle.std.specs.Prelude.{◌≡◌, ◌+◌, ◌≤◌, length};
ghost use Rattle.ip_captures.specs.Numbers.{number_at, short_number_at, long_number_at};

/// The order of the bytes of a capture's numbers: that of the machine that wrote it.
#[derive(Clone, Copy, Debug, PartialEq, Eq)]
pub enum ByteOrder {
    /// The least significant byte first.
    LittleEndian,
    /// The most significant byte first, as in network byte order.
    BigEndian,
}

impl ByteOrder {
    /// Returns the number of 16 bits at an offset of `bytes`.
    #[inline(always)]
    pub(crate) fn u16_at(self, bytes: &[u8], offset: usize) -> u16
        requires { offset + 2 ≤ length bytes.now }
        ensures { result ≡ short_number_at self bytes.now offset }
    {
        let number = [bytes[offset], bytes[offset + 1]];
        match self {
            ByteOrder::LittleEndian => u16::from_le_bytes(number),
            ByteOrder::BigEndian => u16::from_be_bytes(number),
        }
    }

    /// Returns the number of 32 bits at an offset of `bytes`.
    #[inline(always)]
    pub(crate) fn u32_at(self, bytes: &[u8], offset: usize) -> u32
        requires { offset + 4 ≤ length bytes.now }
        ensures { result ≡ number_at self bytes.now offset }
    {
        let number = [
            bytes[offset],
            bytes[offset + 1],
            bytes[offset + 2],
            bytes[offset + 3],
        ];
        match self {
            ByteOrder::LittleEndian => u32::from_le_bytes(number),
            ByteOrder::BigEndian => u32::from_be_bytes(number),
        }
    }

    /// Returns the number of 64 bits at an offset of `bytes`.
    #[inline(always)]
    pub(crate) fn u64_at(self, bytes: &[u8], offset: usize) -> u64
        requires { offset + 8 ≤ length bytes.now }
        ensures { result ≡ long_number_at self bytes.now offset }
    {
        let number = [
            bytes[offset],
            bytes[offset + 1],
            bytes[offset + 2],
            bytes[offset + 3],
            bytes[offset + 4],
            bytes[offset + 5],
            bytes[offset + 6],
            bytes[offset + 7],
        ];
        match self {
            ByteOrder::LittleEndian => u64::from_le_bytes(number),
            ByteOrder::BigEndian => u64::from_be_bytes(number),
        }
    }
}
