//! Bytes 2 and 3 of a fragment header (RFC 8200, section 4.5): its offset, its flag and its reserved bits.
ghost use Rattle.std.specs.Prelude.{◌≡◌};
ghost use Rattle.ip_spec.specs.Fields.{offset_bits, flag_bit, unreserved_bits};

use ip_base::IpFragOffset;

/// Returns the fragment offset, in units of 8 bytes.
#[inline]
pub(crate) fn unpack_offset(high: u8, low: u8) -> IpFragOffset
    ensures { result ≡ offset_bits high low }
{
    let units = u16::from(high) * 32 + u16::from(low & 0b1111_1000) / 8;
    IpFragOffset::try_new(units).unwrap()
}

/// Returns the more fragments flag.
#[inline]
pub(crate) fn unpack_flag(low: u8) -> bool
    ensures { result ≡ flag_bit low }
{
    low & 0b0000_0001 != 0
}

/// Returns byte 3 with its reserved bits zero.
#[inline]
pub(crate) fn clear_reserved_flags(low: u8) -> u8
    ensures { result ≡ unreserved_bits low }
{
    low & 0b1111_1001
}

/// Returns the two bytes, with reserved bits zero.
#[inline]
pub(crate) fn pack(offset: IpFragOffset, more_fragments: bool) -> (u8, u8)
    ensures offset { offset_bits result.0 result.1 ≡ offset }
    ensures flag { flag_bit result.1 ≡ more_fragments }
    ensures reserved { unreserved_bits result.1 ≡ result.1 }
{
    let flag = if more_fragments { 0b0000_0001 } else { 0 };
    let units = offset.value();
    ((units / 32) as u8, (units % 32) as u8 * 8 + flag)
}
