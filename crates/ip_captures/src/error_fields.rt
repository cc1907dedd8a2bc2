//! What is wrong with a capture as plain numbers, for C.
ghost use Rattle.std.specs.Prelude.{◌≡◌, ◌%◌, Some};
ghost use Rattle.ip_captures.specs.ErrorFields.{error_fields, block_fields, fields_with, no_error, AreNumbers, AreBlockNumbers};
ghost use Rattle.ip_captures.specs.declared.err.BlockError.{BlockError as IsBlockError};
ghost use Rattle.ip_captures.specs.declared.err.CaptureError.{CaptureError as IsError};

use crate::{BlockError, CaptureError};

/// An error in a capture, as `CaptureError`, in plain numbers.
#[repr(C)]
#[derive(Clone, Copy, Debug, PartialEq, Eq)]
pub struct CaptureErrorFields {
    /// The offset of the record or block, in bytes from the start of the capture; 0 for the file header.
    pub offset: u64,
    /// The number that the bytes state, or for too many interfaces how many there is memory for; 0 if the kind has none.
    pub value: u64,
    /// The greatest number that is allowed, the total length at the end, the minor version of a section, or the number of bytes that
    /// are left; 0 if the kind has none.
    pub other: u64,
    /// What is wrong: no error 0, the magic number 1, the version 2, a long record 3; the byte-order magic 4, the total
    /// length 5, a long block 6, two total lengths 7, the version of a section 8, too many interfaces 9, an unknown
    /// interface 10, too few captured bytes 11, an option of too few bytes 12, more bytes than a simple packet has 13.
    pub kind: u8,
}

impl CaptureErrorFields {
    /// Returns the fields of no error.
    #[inline(always)]
    pub fn none() -> CaptureErrorFields
        ensures { result ≡ no_error }
    {
        CaptureErrorFields {
            offset: 0,
            value: 0,
            other: 0,
            kind: 0,
        }
    }

    /// Returns the fields of an error.
    pub fn of(error: CaptureError) -> CaptureErrorFields
        ensures { result ≡ error_fields error }
    {
        match error {
            CaptureError::UnknownMagic => Self::at(0, 1, 0, 0),
            CaptureError::UnknownVersion { major } => Self::at(0, 2, u64::from(major), 0),
            CaptureError::LongRecord {
                offset,
                captured_len,
                limit,
            } => Self::at(offset, 3, u64::from(captured_len), u64::from(limit)),
            CaptureError::Block { offset, error } => Self::of_block(offset, error),
        }
    }

    /// Returns the fields of an error in a block.
    fn of_block(offset: u64, error: BlockError) -> CaptureErrorFields
        ensures { result ≡ block_fields offset error }
    {
        match error {
            BlockError::UnknownByteOrder => Self::at(offset, 4, 0, 0),
            BlockError::Length { len } => Self::at(offset, 5, u64::from(len), 0),
            BlockError::Long { len, limit } => {
                Self::at(offset, 6, u64::from(len), u64::from(limit))
            }
            BlockError::Lengths { first, last } => {
                Self::at(offset, 7, u64::from(first), u64::from(last))
            }
            BlockError::UnknownVersion { major, minor } => {
                Self::at(offset, 8, u64::from(major), u64::from(minor))
            }
            BlockError::TooManyInterfaces { room } => Self::at(offset, 9, room as u64, 0),
            BlockError::UnknownInterface { interface } => {
                Self::at(offset, 10, u64::from(interface), 0)
            }
            BlockError::LongPacket { captured_len, left } => {
                Self::at(offset, 11, u64::from(captured_len), left as u64)
            }
            BlockError::LongOption { len, left } => {
                Self::at(offset, 12, u64::from(len), left as u64)
            }
            BlockError::Surplus { captured_len, left } => {
                Self::at(offset, 13, u64::from(captured_len), left as u64)
            }
        }
    }

    /// Returns fields with these values.
    #[inline(always)]
    fn at(offset: u64, kind: u8, value: u64, other: u64) -> CaptureErrorFields
        ensures { result ≡ fields_with offset kind value other }
    {
        CaptureErrorFields {
            offset,
            value,
            other,
            kind,
        }
    }

    /// Returns the error that has these fields. Returns `None` for no error and for an unknown kind.
    pub fn error(&self) -> Option<CaptureError>
        ensures { (e : IsError) → AreNumbers e → self.now ≡ error_fields e → result ≡ Some e }
    {
        match self.kind {
            1 => Some(CaptureError::UnknownMagic),
            2 => Some(CaptureError::UnknownVersion {
                major: low_16_bits(self.value),
            }),
            3 => Some(CaptureError::LongRecord {
                offset: self.offset,
                captured_len: low_32_bits(self.value),
                limit: low_32_bits(self.other),
            }),
            _ => Some(CaptureError::Block {
                offset: self.offset,
                error: self.block_error()?,
            }),
        }
    }

    /// Returns the error in a block that has these fields.
    fn block_error(&self) -> Option<BlockError>
        ensures { (offset : _) (e : IsBlockError) → AreBlockNumbers e → self.now ≡ block_fields offset e → result ≡ Some e }
    {
        let value = low_32_bits(self.value);
        let error = match self.kind {
            4 => BlockError::UnknownByteOrder,
            5 => BlockError::Length { len: value },
            6 => BlockError::Long {
                len: value,
                limit: low_32_bits(self.other),
            },
            7 => BlockError::Lengths {
                first: value,
                last: low_32_bits(self.other),
            },
            8 => BlockError::UnknownVersion {
                major: low_16_bits(self.value),
                minor: low_16_bits(self.other),
            },
            9 => BlockError::TooManyInterfaces {
                room: self.value as usize,
            },
            10 => BlockError::UnknownInterface { interface: value },
            11 => BlockError::LongPacket {
                captured_len: value,
                left: self.other as usize,
            },
            12 => BlockError::LongOption {
                len: low_16_bits(self.value),
                left: self.other as usize,
            },
            13 => BlockError::Surplus {
                captured_len: value,
                left: self.other as usize,
            },
            _ => return None,
        };
        Some(error)
    }
}

/// Returns the low 16 bits of a number.
fn low_16_bits(number: u64) -> u16
    ensures { result ≡ number % 65536 }
{
    (number % 65_536) as u16
}

/// Returns the low 32 bits of a number.
fn low_32_bits(number: u64) -> u32
    ensures { result ≡ number % 4294967296 }
{
    (number % 4_294_967_296) as u32
}
