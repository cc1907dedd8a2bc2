//! Borrowed chains: the longest one that fits six places, and a copy of a chain with its reserved bits zero.
ghost use Rattle.std.specs.Prelude.{◌≡◌, ◌==◌, ◌≤◌, ◌+◌, ℕ, List, ◌∷◌, ◌++◌, length, take, drop, None, Some, if◌then◌else◌};
ghost use Rattle.ip_spec.specs.Chain.{ExtHeader, bytes_of, headers_within};
ghost use Rattle.ip_spec.specs.Demand.{IsLongestUnder};
ghost use Rattle.ip_spec.specs.Encoding.{cleared_chain};
ghost use Rattle.ip_spec.specs.Fits.{FitsPlaces};
ghost use Rattle.ip_ext_slices.specs.Ipv6ExtensionsSlice.{first_header_number, bytes as bytes_in, headers_in};
ghost use Rattle.ip_ext_slices.specs.Ipv6ExtensionSlice.{header_of};
ghost use Rattle.ip_ext_slices.specs.Ipv6ExtensionSliceIter.{headers_left};
ghost use Rattle.ip_ext_chains.specs.Clearing.{Clearing};
ghost use Rattle.ip_ext_chains.specs.Run.{IsRun};
ghost use Rattle.ip_ext_chains.specs.Fitting.{fitting_chain, IsFittingHeaders};

use crate::err::Layer;
use crate::err::ipv6_exts::HeaderSliceError;
use crate::places::Places;
use crate::run::take_fitting;
use crate::{Ipv6ExtensionSlice, Ipv6ExtensionSliceIter, Ipv6ExtensionsSlice};
use ip_base::IpNumber;
use ip_ext_headers::clear_reserved_bits;

/// Parses the headers as `Ipv6Extensions::from_slice_lax` does, and returns them borrowed: the longest chain at the
/// start of the bytes that has a place for each of its headers (RFC 8200, section 4.1), for this start number. Returns
/// the number to which it leads, the bytes after it and the error that ended it, if any, as that call does. Offsets in
/// the error count from the start of `start_slice`. No header is copied. Takes time linear in the longest chain, also
/// in the part of it that doesn't fit.
pub fn fitting_headers(
    start_ip_number: IpNumber,
    start_slice: &[u8],
) -> (
    Ipv6ExtensionsSlice<'_>,
    IpNumber,
    &[u8],
    Option<(HeaderSliceError, Layer)>,
)
    ensures longest { IsLongestUnder FitsPlaces start_ip_number.0 start_slice.now
        (headers_in result.0) }
    ensures answer { IsFittingHeaders start_ip_number.0 start_slice.now
        (headers_in result.0) result.1.0 result.2.now result.3 }
    ensures truncated { (j : ℕ) → fitting_chain start_ip_number.0 (take j start_slice.now)
        ≡ headers_within j (headers_in result.0) }
    ensures bytes { bytes_in result.0 ≡ bytes_of (fitting_chain start_ip_number.0 start_slice.now) }
    ensures first { first_header_number result.0
        ≡ (if length (bytes_in result.0) == 0 then None else Some start_ip_number) }
{
    let (places, number, rest, fault) = take_fitting(start_ip_number, start_slice);
    let fragmented = places.is_fragmenting_payload();
    let front = &start_slice[..start_slice.len() - rest.len()];
    let headers = Ipv6ExtensionsSlice::new(start_ip_number, front, fragmented);
    (headers, number, rest, fault)
}

/// Clears the reserved bits of the headers (RFC 8200, section 4.5; RFC 4302, section 2.3) in a copy of their bytes that
/// the caller made. Links and lengths are unchanged. Nothing is allocated.
pub fn clear_chain(headers: &Ipv6ExtensionsSlice<'_>, copy: &mut [u8])
    requires copied { copy.old ≡ bytes_in headers.now }
    ensures cleared { copy.new ≡ bytes_of (cleared_chain (headers_in headers.now)) }
{
    let Ok(headers) = headers.clone() else {
        unreachable!();
    };
    let mut headers = headers.into_iter();
    let mut at = 0;
    'headers: while let Some(header) = headers.next() {
        at = clear_header(&header, at, copy);
    }
}

/// Stores headers in their places, as `take_run` does, and clears their reserved bits in a copy of the chain, where the
/// first starts at `start`. Returns the places, and where the last header ends.
#[inline(always)]
pub(crate) fn clear_run<'a>(
    headers: &mut Ipv6ExtensionSliceIter<'a>,
    start: usize,
    copy: &mut [u8],
) -> (Places<Ipv6ExtensionSlice<'a>>, usize)
    requires within { start ≤ length copy.old }
    requires copied { drop start copy.old ≡ bytes_of (headers_left headers.old) }
    ensures run { IsRun (headers_left headers.old) result.0 (headers_left headers.new) }
    ensures cleared { Clearing
        (take start copy.old ++ bytes_of (cleared_chain (headers_left headers.old)))
        (headers_left headers.new) result.1 copy.new }
{
    let mut places = Places::new();
    let mut at = start;
    'headers: loop {
        let Some(place) = places.next_place(headers.next_number()) else {
            return (places, at);
        };
        let Some(header) = headers.next() else {
            return (places, at);
        };
        at = clear_header(&header, at, copy);
        places.put(place, header);
    }
}

/// Clears the reserved bits of the header in a copy of its chain, where it starts at `at`. Returns where it ends.
#[inline(always)]
fn clear_header(header: &Ipv6ExtensionSlice<'_>, at: usize, copy: &mut [u8]) -> usize
    requires room { at + length (header_of header.now).bytes ≤ length copy.old }
    ensures { (all : List ℕ) (left : List ExtHeader)
        → Clearing all (header_of header.now ∷ left) at copy.old → Clearing all left result copy.new }
{
    let end = at + header.slice().len();
    clear_reserved_bits(header.number(), &mut copy[at..end]);
    end
}
