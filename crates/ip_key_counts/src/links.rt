//! Entries that are found by their links.
ghost use Rattle.std.specs.Prelude.{◌≡◌, ◌≢◌, ℕ, ◌<◌, ◌≤◌, List, None, IfSome, slice_set, length};
ghost use Rattle.ip_key_counts.specs.Entry.{key_in, key_at, entry_at, raised_entry, IsLast, AreLinked};
ghost use Rattle.ip_key_counts.specs.declared.counted_key.CountedKey.{CountedKey as Entry};

use crate::{CountedKey, MAX_KEY_LEN};

/// Returns the index of the last entry with this key, of those to which a link leads.
pub(crate) fn find_from(entries: &[CountedKey], link: u32, key: &[u8]) -> Option<u32>
    ensures found { IfSome result (λ p. (p < link) × (p < length entries.now) × (key_at entries.now p ≡ key.now)) }
    ensures none { result ≡ None → (bucket_of : List ℕ → ℕ) (n : ℕ) → AreLinked bucket_of entries.now n → n ≤ length entries.now
        → IsLast bucket_of entries.now (bucket_of key.now) n link → (q : ℕ) → q < n → key_at entries.now q ≢ key.now }
{
    let mut left = link;
    'links: while left > 0 {
        let place = left - 1;
        let entry = entries.get(place as usize)?;
        if entry.has_key(key) {
            return Some(place);
        }
        left = entry.older.min(place);
    }
    None
}

/// Adds to the count of the entry with this index.
#[inline(always)]
pub(crate) fn raise(entries: &mut [CountedKey], index: usize, number: u64)
    requires { index < length entries.old }
    ensures { entries.new ≡ slice_set entries.old index (raised_entry (entry_at entries.old index) number) }
{
    let entry = &mut entries[index];
    entry.count = entry.count.saturating_add(number);
}

/// Makes the entry with this index that of a key.
pub(crate) fn hold(entries: &mut [CountedKey], index: usize, key: &[u8], count: u64, older: u32)
    requires within { index < length entries.old }
    requires short { length key.now ≤ MAX_KEY_LEN }
    ensures { (e : Entry) × (entries.new ≡ slice_set entries.old index e) × (key_in e ≡ key.now) × (e.count ≡ count) × (e.older ≡ older) }
{
    entries[index].hold(key, count, older);
}
