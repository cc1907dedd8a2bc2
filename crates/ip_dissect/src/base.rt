//! The base header at the start of bytes.
ghost use Rattle.std.specs.Prelude.{◌≡◌};
ghost use Rattle.ip_dissect.specs.Summary.{IsBaseOf};

use crate::BaseHeader;
use ip_base::{Ipv4HeaderSlice, Ipv6HeaderSlice};

/// Returns the base header at the start of the bytes, if there is a whole one.
#[inline(always)]
pub(crate) fn base_header(bytes: &[u8]) -> Option<BaseHeader<'_>>
    ensures { IsBaseOf bytes.now result }
{
    if bytes.is_empty() {
        return None;
    }
    match bytes[0] >> 4 {
        4 => match Ipv4HeaderSlice::from_slice(bytes) {
            Ok(base) => Some(BaseHeader::Ipv4(base)),
            Err(_) => None,
        },
        6 => match Ipv6HeaderSlice::from_slice(bytes) {
            Ok(base) => Some(BaseHeader::Ipv6(base)),
            Err(_) => None,
        },
        _ => None,
    }
}
