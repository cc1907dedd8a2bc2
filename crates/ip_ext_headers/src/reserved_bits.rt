//! The reserved bits of a header.
ghost use Rattle.std.specs.Prelude.{◌≡◌, ◌<◌, ◌≤◌, length};
ghost use Rattle.ip_spec.specs.Encoding.{cleared_header};

use crate::fragment_bits::clear_reserved_flags;
use ip_base::{IpNumber, ip_number};

/// Clears the reserved bits of a header of this number: byte 1 and two bits of byte 3 of a fragment header (RFC 8200,
/// section 4.5), bytes 2 and 3 of an authentication header (RFC 4302, section 2.3). Other headers have none. Fewer
/// than 4 bytes, which are no header, stay as they are.
#[inline]
pub fn clear_reserved_bits(number: IpNumber, header: &mut [u8])
    ensures cleared { 4 ≤ length header.old → header.new ≡ cleared_header number.0 header.old }
    ensures short { length header.old < 4 → header.new ≡ header.old }
{
    if header.len() < 4 {
        return;
    }
    match number {
        ip_number::IPV6_FRAG => {
            header[1] = 0;
            header[3] = clear_reserved_flags(header[3]);
        }
        ip_number::AUTH => {
            header[2] = 0;
            header[3] = 0;
        }
        _ => {}
    }
}
