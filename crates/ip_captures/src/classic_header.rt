//! The file header of a classic capture file.
ghost use Rattle.std.specs.Prelude.{◌≡◌, ◌<◌, ◌≤◌, length, Some, None, IfSome, IfOk, IfErr, MatchOption};
ghost use Rattle.ip_captures.specs.Numbers.{number_at};
ghost use Rattle.ip_captures.specs.ClassicHeader.{magic_number, IsFileHeader, IsHeaderError, NoMagicNumber};

use crate::{ByteOrder, CaptureError};

/// What the records of a classic capture file are like, by its magic number.
#[derive(Clone, Copy, Debug, PartialEq, Eq)]
pub enum Variant {
    /// Times in microseconds (0xA1B2C3D4).
    Microseconds,
    /// Times in nanoseconds (0xA1B23C4D).
    Nanoseconds,
    /// Times in microseconds, and 8 more bytes in the header of each record (0xA1B2CD34, of patched versions of libpcap).
    Modified,
}

/// What the file header of a classic capture file says (draft-ietf-opsawg-pcap, section 4).
#[derive(Clone, Copy, Debug, PartialEq, Eq)]
pub struct ClassicHeader {
    /// The order of the bytes of its numbers and those of its records.
    pub byte_order: ByteOrder,
    /// What its records are like.
    pub variant: Variant,
    /// The length to which packets were truncated, in bytes. Some programs state less than they capture.
    pub snap_len: u32,
    /// The link type, such as 1 for Ethernet.
    pub link_type: u16,
}

impl ClassicHeader {
    /// The length of a file header, in bytes.
    pub const LEN: usize = 24;

    /// Parses the file header at the start of `bytes`. Returns `None` if there are fewer than 24 bytes, and an error if
    /// the first 4 aren't a magic number of classic files, otherwise if the major version isn't 2.
    pub fn parse(bytes: &[u8]) -> Result<Option<ClassicHeader>, CaptureError>
        ensures header { IfOk result (λ h. MatchOption h (length bytes.now < 24) (IsFileHeader bytes.now)) }
        ensures error { IfErr result (λ e. (24 ≤ length bytes.now) × IsHeaderError bytes.now e) }
    {
        if bytes.len() < Self::LEN {
            return Ok(None);
        }
        let Some((byte_order, variant)) = magic_at(bytes) else {
            return Err(CaptureError::UnknownMagic);
        };
        let major = byte_order.u16_at(bytes, 4);
        if major != 2 {
            return Err(CaptureError::UnknownVersion { major });
        }
        Ok(Some(ClassicHeader {
            byte_order,
            variant,
            snap_len: byte_order.u32_at(bytes, 16),
            link_type: (byte_order.u32_at(bytes, 20) % 65536) as u16,
        }))
    }
}

/// Returns the byte order and the variant of the magic number at the start of `bytes`.
fn magic_at(bytes: &[u8]) -> Option<(ByteOrder, Variant)>
    requires { 4 ≤ length bytes.now }
    ensures { MatchOption result (NoMagicNumber bytes.now)
        (λ m. number_at m.0 bytes.now 0 ≡ magic_number m.1) }
{
    if let Some(variant) = variant_of(ByteOrder::LittleEndian.u32_at(bytes, 0)) {
        return Some((ByteOrder::LittleEndian, variant));
    }
    let variant = variant_of(ByteOrder::BigEndian.u32_at(bytes, 0))?;
    Some((ByteOrder::BigEndian, variant))
}

/// Returns the variant with this magic number.
fn variant_of(magic: u32) -> Option<Variant>
    ensures found { IfSome result (λ v. magic ≡ magic_number v) }
    ensures none { result ≡ None → (v : Variant) → ¬ (magic ≡ magic_number v) }
{
    match magic {
        0xa1b2_c3d4 => Some(Variant::Microseconds),
        0xa1b2_3c4d => Some(Variant::Nanoseconds),
        0xa1b2_cd34 => Some(Variant::Modified),
        _ => None,
    }
}
