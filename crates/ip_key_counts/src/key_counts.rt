//! A table of counts by key.
ghost use Rattle.std.specs.Prelude.{◌≡◌, ◌<◌, EachIndex, slice_index};

use crate::links::{find_from, hold, raise};
use crate::{CountedKey, MAX_KEY_LEN};
use ip_hash::sip_hash_bytes;

/// The number of entries that are remembered, so that frequent keys are found without a hash.
const RECENT: usize = 64;

/// Counts by key, in memory of the caller's.
///
/// The entry of a key is in the chain of the bucket that the hash of the key selects. There should be about as many buckets as
/// entries. Whatever the memory contains, no call fails. After `clear` nothing is counted, and each call keeps the table valid.
#[repr(C)]
#[derive(Drop)]
pub struct KeyCounts<'m> {
    /// The entries: first those in use, in the order in which their keys were first counted.
    pub entries: &'m mut [CountedKey],
    /// For each bucket, one more than the index of its last entry; 0 if it has none.
    pub newest: &'m mut [u32],
    /// How many entries are in use.
    pub len: usize,
    /// The count of the keys that have no entry.
    pub other: u64,
    /// The seed of the hash, which nobody who chooses keys may know.
    pub seed: [u64; 2],
    /// The index of an entry that was counted lately, for each of some groups of keys.
    recent: [u32; RECENT],
}

/// Returns the group of a key among those of which an entry is remembered.
#[inline(always)]
fn group_of(key: &[u8]) -> usize
    ensures { result < 64 }
{
    let mut group = key.len() % RECENT;
    if let [first, second, third, ..] = key {
        group += usize::from(*first) + 5 * usize::from(*second) + 19 * usize::from(*third);
    }
    group % RECENT
}

/// Makes all links lead to no entry.
fn clear_all(newest: &mut [u32])
    ensures { EachIndex newest.new (λ b. slice_index newest.new b ≡ 0) }
{
    for link in newest.iter_mut() {
        *link = 0;
    }
}

impl<'m> KeyCounts<'m> {
    ghost use Rattle.std.specs.Prelude.{◌^◌, ◌≡◌, ◌≢◌, ◌↔◌, ℕ, ◌<◌, ◌≤◌, List, length, IfSome, IsTrue, true, false, None, map};
    ghost use Rattle.ip_key_counts.specs.Counts.{all_counted, counted, merged, nothing};
    ghost use Rattle.ip_key_counts.specs.Entry.{key_at, counted_in, IsLast};
    ghost use Rattle.ip_key_counts.specs.Table.{counts_in, room_of, bucket_of, HasBuckets, IsTable, IsNew};

    /// Returns the entry with this key, if it is remembered.
    #[inline(always)]
    fn recent_place(&self, group: usize, key: &[u8]) -> Option<u32>
        requires { group < 64 }
        ensures { IfSome result (λ p. (p < self.now.len) × (p < length self.now.entries.now) × (key_at self.now.entries.now p ≡ key.now)) }
    {
        let place = self.recent[group];
        if (place as usize) >= self.len {
            return None;
        }
        if self.entries.get(place as usize)?.has_key(key) {
            Some(place)
        } else {
            None
        }
    }

    /// Returns the bucket of a key, if there are buckets.
    #[inline(always)]
    fn bucket(&self, key: &[u8]) -> Option<usize>
        ensures bucket { IfSome result (λ b. (b ≡ bucket_of self.now key.now) × (b < length self.now.newest.now)) }
        ensures none { result ≡ None → length self.now.newest.now ≡ 0 }
    {
        if self.newest.is_empty() {
            return None;
        }
        let buckets = self.newest.len() as u64;
        Some((sip_hash_bytes(&self.seed, key) % buckets) as usize)
    }

    /// Returns the entry with this key in a bucket.
    #[inline(always)]
    fn find(&self, bucket: usize, key: &[u8]) -> Option<u32>
        requires { bucket < length self.now.newest.now }
        ensures within { IfSome result (λ p. p < length self.now.entries.now) }
        ensures used { IsTable self.now → IfSome result (λ p. p < self.now.len) }
        ensures key { IfSome result (λ p. key_at self.now.entries.now p ≡ key.now) }
        ensures none { result ≡ None → IsTable self.now → bucket ≡ bucket_of self.now key.now → IsNew self.now key.now }
    {
        find_from(self.entries, self.newest[bucket], key)
    }

    /// Makes a table in this memory, which counts nothing yet: with as many entries, and with a bucket for each of the numbers
    /// `newest`.
    pub fn new(
        entries: &'m mut [CountedKey],
        newest: &'m mut [u32],
        seed: [u64; 2],
    ) -> KeyCounts<'m>
        ensures table { 0 < length newest.old → length entries.old < 2 ^ 32 → IsTable result }
        ensures counts { counts_in result ≡ nothing }
        ensures room { room_of result ≡ length entries.old }
        ensures seed { result.seed ≡ seed }
    {
        clear_all(newest);
        KeyCounts {
            entries,
            newest,
            len: 0,
            other: 0,
            seed,
            recent: [0; RECENT],
        }
    }

    /// Counts nothing yet, whatever the memory contains. Returns false, and changes nothing, if there is no bucket, or if there
    /// are 2^32 entries or more.
    pub fn clear(&mut self) -> bool
        ensures buckets { IsTrue result ↔ HasBuckets self.old }
        ensures cleared { result ≡ true → IsTable self.new × (counts_in self.new ≡ nothing) }
        ensures room { room_of self.new ≡ room_of self.old }
        ensures seed { self.new.seed ≡ self.old.seed }
        ensures same { result ≡ false → counts_in self.new ≡ counts_in self.old }
    {
        if self.newest.is_empty() || self.entries.len() > u32::MAX as usize {
            return false;
        }
        clear_all(self.newest);
        self.len = 0;
        self.other = 0;
        true
    }

    /// Counts a key as often as this. A key without an entry gets the next one or, if none is left or the key has more than
    /// `MAX_KEY_LEN` bytes, is counted as other.
    #[inline(always)]
    pub fn count(&mut self, key: &[u8], number: u64)
        ensures counts { IsTable self.old → counts_in self.new ≡ counted (room_of self.old) (counts_in self.old) key.now number }
        ensures table { IsTable self.old → IsTable self.new }
        ensures room { room_of self.new ≡ room_of self.old }
        ensures seed { self.new.seed ≡ self.old.seed }
    {
        let group = group_of(key);
        match self.recent_place(group, key) {
            Some(place) => raise(self.entries, place as usize, number),
            None => self.count_by_hash(group, key, number),
        }
    }

    /// Counts a key with more than `MAX_KEY_LEN` bytes as often as this: as other.
    pub fn count_too_long(&mut self, number: u64)
        ensures counts { (k : List ℕ) → MAX_KEY_LEN < length k → IsTable self.old
            → counts_in self.new ≡ counted (room_of self.old) (counts_in self.old) k number }
        ensures table { IsTable self.old → IsTable self.new }
        ensures room { room_of self.new ≡ room_of self.old }
        ensures seed { self.new.seed ≡ self.old.seed }
    {
        self.other = self.other.saturating_add(number);
    }

    /// Counts a key that isn't remembered.
    #[inline(never)]
    fn count_by_hash(&mut self, group: usize, key: &[u8], number: u64)
        requires { group < 64 }
        ensures counts { IsTable self.old → counts_in self.new ≡ counted (room_of self.old) (counts_in self.old) key.now number }
        ensures table { IsTable self.old → IsTable self.new }
        ensures room { room_of self.new ≡ room_of self.old }
        ensures seed { self.new.seed ≡ self.old.seed }
    {
        let Some(bucket) = self.bucket(key) else {
            return;
        };
        match self.find(bucket, key) {
            Some(place) => {
                raise(self.entries, place as usize, number);
                self.recent[group] = place;
            }
            None => self.count_new(group, bucket, key, number),
        }
    }

    /// Counts a key that has no entry and is in this bucket.
    fn count_new(&mut self, group: usize, bucket: usize, key: &[u8], number: u64)
        requires group { group < 64 }
        requires bucket { bucket < length self.old.newest.now }
        ensures counts { IsTable self.old → IsNew self.old key.now → counts_in self.new ≡ counted (room_of self.old) (counts_in self.old) key.now number }
        ensures table { IsTable self.old → IsNew self.old key.now → bucket ≡ bucket_of self.old key.now → IsTable self.new }
        ensures room { room_of self.new ≡ room_of self.old }
        ensures seed { self.new.seed ≡ self.old.seed }
    {
        let place = self.len;
        if place < self.entries.len() && place < u32::MAX as usize && key.len() <= MAX_KEY_LEN {
            let older = self.newest[bucket];
            hold(self.entries, place, key, number, older);
            self.newest[bucket] = place as u32 + 1;
            self.recent[group] = place as u32;
            self.len = place + 1;
        } else {
            self.other = self.other.saturating_add(number);
        }
    }

    /// Adds the counts of another table: those of its entries in order, and then what it counts as other.
    pub fn merge(&mut self, more: &KeyCounts<'_>)
        ensures counts { IsTable self.old → counts_in self.new ≡ merged (room_of self.old) (counts_in self.old) (counts_in more.now) }
        ensures table { IsTable self.old → IsTable self.new }
        ensures room { room_of self.new ≡ room_of self.old }
        ensures seed { self.new.seed ≡ self.old.seed }
    {
        self.count_entries(more.listed());
        self.other = self.other.saturating_add(more.other);
    }

    /// Counts the key of each entry as often as the entry says.
    fn count_entries(&mut self, entries: &[CountedKey])
        ensures counts { IsTable self.old → counts_in self.new ≡ all_counted (room_of self.old) (counts_in self.old) (map counted_in entries.now) }
        ensures table { IsTable self.old → IsTable self.new }
        ensures room { room_of self.new ≡ room_of self.old }
        ensures seed { self.new.seed ≡ self.old.seed }
    {
        'entries: for entry in entries {
            self.count(entry.key(), entry.count);
        }
    }

    /// Returns the entries in use, in the order in which their keys were first counted.
    #[inline(always)]
    pub fn listed(&self) -> &[CountedKey]
        ensures { map counted_in result.now ≡ (counts_in self.now).listed }
    {
        &self.entries[..self.len.min(self.entries.len())]
    }
}
