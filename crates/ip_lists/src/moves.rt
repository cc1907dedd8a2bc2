//! A place that is moved from one list to another.
ghost use Rattle.std.specs.Prelude.{◌≡◌, ◌≢◌, ℕ, ◌<◌, ◌≤◌, [], length};
ghost use Rattle.ip_lists.specs.Lists.{AreInverse, IsList};
ghost use Rattle.std.specs.List.{range_with_len};
ghost use Rattle.ip_lists.specs.Moves.{IsMovedTo};

use crate::Links;

/// Takes a place out of its list, and appends it to the list of a head.
pub(crate) fn move_to(links: &mut Links<'_>, head: u32, place: u32)
    ensures len { length links.new.next.now ≡ length links.old.next.now }
    ensures previous_len { length links.new.previous.now ≡ length links.old.previous.now }
    ensures linked { AreInverse links.old.next.now links.old.previous.now → AreInverse links.new.next.now links.new.previous.now }
    ensures moved { AreInverse links.old.next.now links.old.previous.now → head < length links.old.next.now → place < length links.old.next.now
        → place ≢ head → IsMovedTo links.old.next.now links.new.next.now head place }
{
    if links.remove(place) {
        links.push_back(head, place);
    }
}

/// Appends the places below a head to its list, in their order.
pub(crate) fn push_below(links: &mut Links<'_>, head: u32)
    requires linked { AreInverse links.old.next.now links.old.previous.now }
    requires empty { (h : ℕ) → h < length links.old.next.now → IsList links.old.next.now h [] }
    requires within { head < length links.old.next.now }
    ensures len { length links.new.next.now ≡ length links.old.next.now }
    ensures linked { AreInverse links.new.next.now links.new.previous.now }
    ensures listed { IsList links.new.next.now head (range_with_len 0 head) }
    ensures others { (h : ℕ) → head < h → h < length links.new.next.now → IsList links.new.next.now h [] }
{
    for place in 0..head {
        links.push_back(head, place);
    }
}
