//! Bytes from the caller.
ghost use Rattle.std.specs.Prelude.{◌≡◌};

/// A C byte array: a pointer and a length.
///
/// The calling convention passes both in the registers of a pointer and a length, so C passes these two. A slice as a
/// parameter would be the same for C, but its null pointer is replaced before anything is read, which takes more than
/// a tenth of the time of parsing a packet.
#[repr(C)]
#[derive(Clone, Copy)]
pub struct Bytes<'a> {
    /// The bytes; if there are none, the pointer may be null.
    pub slice: &'a [u8],
}

impl<'a> Bytes<'a> {
    /// Returns the bytes. If there are none, the caller's pointer is not used, so it may be null.
    #[inline(always)]
    pub(crate) fn slice(self) -> &'a [u8]
        ensures { result.now ≡ self.entry.slice.now }
    {
        if self.slice.is_empty() {
            &[]
        } else {
            self.slice
        }
    }
}
