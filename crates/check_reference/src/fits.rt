//! The headers that fit six places, counted in the simplest way.
ghost use Rattle.std.specs.Prelude.{◌≡◌, ◌↔◌, ◌≤◌, ◌==◌, length, map, take, count_by, IsTrue};
ghost use Rattle.std.specs.List.{position_or_len, before_first, after_first};
ghost use Rattle.ip_spec.specs.Numbers.{ROUTING};
ghost use Rattle.ip_spec.specs.Chain.{headers_within};
ghost use Rattle.ip_spec.specs.Demand.{KeepsBeginning};
ghost use Rattle.ip_spec.specs.Fits.{FitsPlaces};
ghost use Rattle.check_reference.specs.PlainHeader.{plain_header_of};

use crate::chain::PlainHeader;

/// Returns how many of the headers have the number.
fn how_often(number: u8, headers: &[PlainHeader<'_>]) -> usize
    ensures { result ≡ count_by (λ h. h.number == number) headers.now }
{
    headers
        .iter()
        .filter(|header| header.number == number)
        .count()
}

/// Returns the number of headers before the first routing header, or of all if there is none.
fn routing_at(headers: &[PlainHeader<'_>]) -> usize
    ensures at { result ≡ position_or_len (λ h. h.number == ROUTING) headers.now }
    ensures within { result ≤ length headers.now }
{
    match headers {
        [] => 0,
        [first, _others @ ..] if first.number == 43 => 0,
        [_, others @ ..] => routing_at(others) + 1,
    }
}

/// Returns how many of those before the first routing header have the number, or of all if there is none.
fn how_often_before(number: u8, headers: &[PlainHeader<'_>]) -> usize
    ensures { result ≡ count_by (λ h. h.number == number)
        (before_first (λ h. h.number == ROUTING) headers.now) }
{
    let (before, _) = headers.split_at(routing_at(headers));
    how_often(number, before)
}

/// Returns how many of those after the first routing header have the number, or 0 if there is none.
fn how_often_after(number: u8, headers: &[PlainHeader<'_>]) -> usize
    ensures { result ≡ count_by (λ h. h.number == number)
        (after_first (λ h. h.number == ROUTING) headers.now) }
{
    let at = routing_at(headers);
    if at == headers.len() {
        return 0;
    }
    let (_, after) = headers.split_at(at + 1);
    how_often(number, after)
}

/// Returns whether the numbers of the headers fit six places: hop-by-hop options, routing, fragment and
/// authentication at most once each, and destination options at most once before the first routing header and once
/// after it.
pub fn numbers_fit(headers: &[PlainHeader<'_>]) -> bool
    ensures { IsTrue result ↔ FitsPlaces (map plain_header_of headers.now) }
{
    how_often(0, headers) <= 1
        && how_often(43, headers) <= 1
        && how_often(44, headers) <= 1
        && how_often(51, headers) <= 1
        && how_often_before(60, headers) <= 1
        && how_often_after(60, headers) <= 1
}

/// Returns how many headers fit, from the first on: all, or those before the first that doesn't fit.
#[tactic(auto, using(crate::proofs::FitsLemmas::kept_of_plain))]
pub fn fitting_len(headers: &[PlainHeader<'_>]) -> usize
    ensures within { result ≤ length headers.now }
    ensures kept { KeepsBeginning FitsPlaces (map plain_header_of headers.now)
        (map plain_header_of (take result headers.now)) }
{
    'lens: for len in 0..headers.len() {
        if !numbers_fit(&headers[..len + 1]) {
            return len;
        }
    }
    headers.len()
}

/// Returns how many headers lie wholly within the first `len` bytes of all of them joined.
pub fn whole_within(len: usize, headers: &[PlainHeader<'_>]) -> usize
    ensures within { result ≤ length headers.now }
    ensures headers { map plain_header_of (take result headers.now)
        ≡ headers_within len (map plain_header_of headers.now) }
{
    match headers {
        [first, others @ ..] if first.bytes.len() <= len => {
            whole_within(len - first.bytes.len(), others) + 1
        }
        _ => 0,
    }
}
