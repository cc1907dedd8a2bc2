//! One array of links.
ghost use Rattle.std.specs.Prelude.{◌≡◌, ◌≢◌, ◌↔◌, ℕ, ◌<◌, ◌≤◌, ◌^◌, length, EachIndex, slice_index, slice_get, slice_set, Some, IsTrue};

/// Links each place to itself.
pub(crate) fn make_alone(links: &mut [u32])
    requires { length links.old ≤ 2 ^ 32 }
    ensures { EachIndex links.new (λ k. slice_index links.new k ≡ k) }
{
    for (place, link) in links.iter_mut().enumerate() {
        *link = place as u32;
    }
}

/// Returns the link of a place, or `None` if the place is beyond the links.
#[inline(always)]
pub(crate) fn link_of(links: &[u32], place: u32) -> Option<u32>
    ensures { result ≡ slice_get links.now place }
{
    links.get(place as usize).copied()
}

/// Returns whether the link of a place is this one.
#[inline(always)]
pub(crate) fn leads(links: &[u32], from: u32, to: u32) -> bool
    ensures { IsTrue result ↔ (slice_get links.now from ≡ Some to) }
{
    match link_of(links, from) {
        Some(link) => link == to,
        None => false,
    }
}

/// Returns the place after this one in the list of a head. Returns `None` if that is the head, or beyond the links.
#[inline(always)]
pub(crate) fn member_after(links: &[u32], head: u32, place: u32) -> Option<u32>
    ensures { (p : ℕ) → (result ≡ Some p) ↔ ((slice_get links.now place ≡ Some p) × (p ≢ head) × (p < length links.now)) }
{
    match link_of(links, place) {
        Some(link) if link != head && (link as usize) < links.len() => Some(link),
        _ => None,
    }
}

/// Writes the link of a place, and then that of another one.
#[inline(always)]
pub(crate) fn rewire(links: &mut [u32], first: u32, first_link: u32, second: u32, second_link: u32)
    requires first { first < length links.old }
    requires second { second < length links.old }
    ensures { links.new ≡ slice_set (slice_set links.old first first_link) second second_link }
{
    links[first as usize] = first_link;
    links[second as usize] = second_link;
}
