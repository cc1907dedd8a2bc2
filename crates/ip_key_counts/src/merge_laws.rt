//! Laws of counts that were counted apart, proved as the contract of a call.
ghost use Rattle.std.specs.Prelude.{◌≡◌, ℕ, ◌+◌, ◌-◌, ◌^◌, ◌<◌, min, List, length, All};
ghost use Rattle.ip_key_counts.specs.Counts.{Counts, nothing, merged, keys_counted, parts_merged, flatten, total};

/// Proves that keys may be counted apart, part by part, and merged in order: if no part counted a key as other, the result is
/// that of counting all keys one after another, whether the table that they are merged in has room for all keys or not. In any
/// case no key is lost or counted twice.
pub fn merges_count_all_keys()
    ensures one { (room r : ℕ) (c : Counts) (keys : List (List ℕ)) → c.other < 2 ^ 64
        → (keys_counted r nothing keys).other ≡ 0
        → merged room c (keys_counted r nothing keys) ≡ keys_counted room c keys }
    ensures parts { (room r : ℕ) (parts : List (List (List ℕ)))
        → All (λ keys. (keys_counted r nothing keys).other ≡ 0) parts
        → parts_merged room r nothing parts ≡ keys_counted room nothing (flatten parts) }
    ensures total { (room : ℕ) (keys : List (List ℕ))
        → total (keys_counted room nothing keys) ≡ min (length keys) (2 ^ 64 - 1) }
    ensures merged_total { (room r s : ℕ) (xs ys : List (List ℕ))
        → total (merged room (keys_counted r nothing xs) (keys_counted s nothing ys)) ≡ min (length xs + length ys) (2 ^ 64 - 1) }
{}
