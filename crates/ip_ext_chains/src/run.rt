//! Headers taken from a chain into six places: those of a run, and those at the start of bytes.
ghost use Rattle.std.specs.Prelude.{◌≡◌, ◌≢◌, [], None, IsTrue, IsFalse};
ghost use Rattle.ip_ext_slices.specs.Ipv6ExtensionSliceIter.{headers_left};
ghost use Rattle.ip_spec.specs.Header.{IsLaterNumber};
ghost use Rattle.ip_spec.specs.Places.{next_place};
ghost use Rattle.ip_ext_chains.specs.Slots.{at};
ghost use Rattle.ip_ext_chains.specs.Run.{IsRun};
ghost use Rattle.ip_ext_chains.specs.Fitting.{IsPlacedAnswer};

use crate::err::Layer;
use crate::err::ipv6_exts::HeaderSliceError;
use crate::places::Places;
use crate::{Ipv6ExtensionSlice, Ipv6ExtensionSliceIter, Ipv6ExtensionsSlice};
use ip_base::IpNumber;

/// Stores the headers of the longest chain at the start of the bytes in their places, up to the first whose place is
/// occupied. Returns the places, the number to which these headers lead, the bytes after them and the error there.
/// Nothing large is built before the error is known.
#[inline(never)]
pub(crate) fn take_fitting(
    start: IpNumber,
    bytes: &[u8],
) -> (
    Places<Ipv6ExtensionSlice<'_>>,
    IpNumber,
    &[u8],
    Option<(HeaderSliceError, Layer)>,
)
    ensures { IsPlacedAnswer start.0 bytes.now result.0 result.1.0 result.2.now result.3 }
{
    let (chain, number, rest, fault) = Ipv6ExtensionsSlice::from_slice_lax(start, bytes);
    let len = chain.slice().len();
    let mut headers = chain.into_iter();
    let places = take_run(&mut headers);
    let left = headers.rest();
    if !left.is_empty() {
        let read = len - left.len();
        return (places, headers.next_number(), &bytes[read..], None);
    }
    if places.is_occupied(number) {
        return (places, number, rest, None);
    }
    (places, number, rest, fault)
}

/// Stores headers in their places until the place of the next is occupied, or none is left.
#[inline(always)]
pub(crate) fn take_run<'a>(
    headers: &mut Ipv6ExtensionSliceIter<'a>,
) -> Places<Ipv6ExtensionSlice<'a>>
    ensures { IsRun (headers_left headers.old) result (headers_left headers.new) }
{
    let mut places = Places::new();
    'headers: loop {
        let Some(place) = places.next_place(headers.next_number()) else {
            return places;
        };
        let Some(header) = headers.next() else {
            return places;
        };
        places.put(place, header);
    }
}

/// Returns whether the run in the places is the last: no header is left, and the place of the number at the end is
/// free.
#[inline(always)]
pub(crate) fn is_last(
    headers: &Ipv6ExtensionSliceIter<'_>,
    places: &Places<Ipv6ExtensionSlice<'_>>,
    number: IpNumber,
) -> bool
    ensures last { IsTrue result → (headers_left headers.now ≡ [])
        × (IsLaterNumber number.0 → next_place (λ p. at p places.now) number.0 ≢ None) }
    ensures more { IsFalse result → headers_left headers.now ≡ []
        → IsLaterNumber number.0 × (next_place (λ p. at p places.now) number.0 ≡ None) }
{
    headers.rest().is_empty() && !places.is_occupied(number)
}
