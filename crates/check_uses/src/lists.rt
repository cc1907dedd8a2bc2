//! Callers of lists.
ghost use Rattle.std.specs.Prelude.{◌≡◌, ◌≢◌, ℕ, ◌++◌, ◌∷◌, [], List, Some, Contains};
ghost use Rattle.ip_lists.specs.Lists.{AreInverse, IsList};

use ip_lists::{Links, each_head_has_one_list, lists_are_apart};

/// Moves the first member of a list to the end of another one, and returns it. Returns `None` if the list is empty.
pub fn move_first(links: &mut Links<'_>, from: u32, to: u32) -> Option<u32>
    requires linked { AreInverse links.old.next.now links.old.previous.now }
    requires apart { from ≢ to }
    ensures linked { AreInverse links.new.next.now links.new.previous.now }
    ensures moved { (p : ℕ) (xs ys : List ℕ) → IsList links.old.next.now from (p ∷ xs)
        → IsList links.old.next.now to ys → ¬ Contains (p ∷ xs) to → ¬ Contains ys from
        → (result ≡ Some p) × IsList links.new.next.now from xs × IsList links.new.next.now to (ys ++ p ∷ []) }
{
    let place = links.first(from)?;
    each_head_has_one_list();
    lists_are_apart();
    links.remove(place);
    links.push_back(to, place);
    Some(place)
}
