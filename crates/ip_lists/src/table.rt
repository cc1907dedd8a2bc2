//! A table of places that are found by their bucket and given up by their age.
ghost use Rattle.std.specs.Prelude.{◌≡◌, ℕ, ◌+◌, ◌<◌, ◌≤◌, ◌++◌, ◌∷◌, [], ◌↔◌, List, length, Some, None, IfSome, is_none, All, Contains, true, false};
ghost use Rattle.std.specs.List.{range_with_len};
ghost use Rattle.ip_lists.specs.Lists.{AreInverse, IsList};
ghost use Rattle.ip_lists.specs.Members.{members_left};
ghost use Rattle.ip_lists.specs.Moves.{without};
ghost use Rattle.ip_lists.specs.Table.{IsTable, HasRoom, HasBucket, AreSame, in_bucket, with_bucket};

use crate::moves::{move_to, push_below};
use crate::{Links, Members};

/// A place that was taken.
#[derive(Clone, Copy, Debug, PartialEq)]
pub struct Taken {
    /// The place.
    pub place: u32,
    /// Whether it was in use, so that what it had is given up.
    pub was_used: bool,
}

/// A table of places, each of which is free, or in use and in the chain of a bucket. The caller keeps a slot for each place,
/// and chooses the bucket by a hash of what is in the slot.
///
/// Whatever the arrays contain, no call fails. After `clear` they agree, and each call keeps it so.
#[repr(C)]
#[derive(Drop)]
pub struct Table<'m> {
    /// The number of places, which are 0, 1, .. below it.
    pub places: u32,
    /// The free places (the head is `places`) and those in use (the head is `places + 1`), the oldest first.
    pub ages: Links<'m>,
    /// The places in use of each bucket (the head is `places + bucket`), the oldest first.
    pub chains: Links<'m>,
}

/// Returns the place that comes so many after another one, if there is such a place.
fn head_at(next: &[u32], first: u32, number: u32) -> Option<u32>
    ensures found { IfSome result (λ h. (h ≡ first + number) × (h < length next.now)) }
    ensures none { is_none result ≡ true → (previous : List ℕ) → AreInverse next.now previous → ¬ (first + number < length next.now) }
{
    let head = first.checked_add(number)?;
    if (head as usize) < next.len() {
        Some(head)
    } else {
        None
    }
}

impl<'m> Table<'m> {
    /// Frees all places, in their order, and empties the chains.
    pub fn clear(&mut self)
        requires { HasRoom self.old }
        ensures cleared { (bucket_of : ℕ → ℕ) → IsTable self.new (range_with_len 0 self.old.places) [] bucket_of }
        ensures places { self.new.places ≡ self.old.places }
        ensures buckets { (b : ℕ) → HasBucket self.new b ↔ HasBucket self.old b }
        ensures room { HasRoom self.new }
    {
        self.ages.clear();
        self.chains.clear();
        let places = self.places;
        push_below(&mut self.ages, places);
    }

    /// Returns the places in use of a bucket, the oldest first. Of arrays that don't agree, these are at most as many as the
    /// table has places.
    pub fn chain(&self, bucket: u32) -> Members<'_>
        ensures chain { (free used : List ℕ) (bucket_of : ℕ → ℕ) → IsTable self.now free used bucket_of
            → members_left result ≡ in_bucket bucket_of bucket used }
        ensures no_bucket { ¬ HasBucket self.now bucket → members_left result ≡ [] }
        ensures few { length (members_left result) ≤ self.now.places }
        ensures within { All (λ p. p < length self.now.chains.next.now) (members_left result) }
    {
        let (head, left) = match self.chain_head(bucket) {
            Some(head) => (head, self.places as usize),
            None => (bucket, 0),
        };
        Members {
            next: self.chains.next,
            head,
            place: head,
            left,
        }
    }

    /// Returns the head of the chain of a bucket, if the table has the bucket.
    fn chain_head(&self, bucket: u32) -> Option<u32>
        ensures found { IfSome result (λ h. (h ≡ self.now.places + bucket) × (h < length self.now.chains.next.now)) }
        ensures none { is_none result ≡ true → (previous : List ℕ) → AreInverse self.now.chains.next.now previous → ¬ HasBucket self.now bucket }
    {
        head_at(self.chains.next, self.places, bucket)
    }

    /// Returns the head of the places in use.
    fn used_head(&self) -> Option<u32>
        ensures found { IfSome result (λ h. (h ≡ self.now.places + 1) × (h < length self.now.ages.next.now)) }
        ensures none { is_none result ≡ true → (previous : List ℕ) → AreInverse self.now.ages.next.now previous
            → ¬ (self.now.places + 1 < length self.now.ages.next.now) }
    {
        head_at(self.ages.next, self.places, 1)
    }

    /// Returns the head of the places in use, and that of the chain of a bucket.
    fn heads(&self, bucket: u32) -> Option<(u32, u32)>
        ensures used { IfSome result (λ h. (h.0 ≡ self.now.places + 1) × (h.0 < length self.now.ages.next.now)) }
        ensures chain { IfSome result (λ h. (h.1 ≡ self.now.places + bucket) × (h.1 < length self.now.chains.next.now)) }
        ensures none { is_none result ≡ true → (previous chains_previous : List ℕ) → AreInverse self.now.ages.next.now previous
            → AreInverse self.now.chains.next.now chains_previous → self.now.places + 1 < length self.now.ages.next.now → ¬ HasBucket self.now bucket }
        ensures no_bucket { ¬ HasBucket self.now bucket → result ≡ None }
    {
        let used = self.used_head()?;
        let chain = self.chain_head(bucket)?;
        Some((used, chain))
    }

    /// Returns the first free place or, if there is none, the place that has been in use longest.
    fn next_taken(&self, used: u32) -> Option<Taken>
        ensures within { IfSome result (λ t. t.place < self.now.places) }
        ensures free { (p : ℕ) (ps : List ℕ) → IsList self.now.ages.next.now self.now.places (p ∷ ps) → p < self.now.places
            → result ≡ Some (record { place = p; was_used = false }) }
        ensures used { IsList self.now.ages.next.now self.now.places [] → (p : ℕ) (ps : List ℕ)
            → IsList self.now.ages.next.now used (p ∷ ps) → p < self.now.places → result ≡ Some (record { place = p; was_used = true }) }
        ensures none { IsList self.now.ages.next.now self.now.places [] → IsList self.now.ages.next.now used [] → result ≡ None }
    {
        let (place, was_used) = match self.ages.first(self.places) {
            Some(place) => (place, false),
            None => (self.ages.first(used)?, true),
        };
        if place < self.places {
            Some(Taken { place, was_used })
        } else {
            None
        }
    }

    /// Takes the first free place or, only if there is none, the place that has been in use longest. It is the youngest in use
    /// then, and in the chain of this bucket alone. Returns `None`, and changes nothing, if the table has no places or doesn't
    /// have the bucket.
    pub fn take(&mut self, bucket: u32) -> Option<Taken>
        ensures free { (p : ℕ) (free used : List ℕ) (bucket_of : ℕ → ℕ) → IsTable self.old (p ∷ free) used bucket_of → HasBucket self.old bucket
            → (result ≡ Some (record { place = p; was_used = false })) × IsTable self.new free (used ++ p ∷ []) (with_bucket bucket_of p bucket) }
        ensures oldest { (p : ℕ) (used : List ℕ) (bucket_of : ℕ → ℕ) → IsTable self.old [] (p ∷ used) bucket_of → HasBucket self.old bucket
            → (result ≡ Some (record { place = p; was_used = true })) × IsTable self.new [] (used ++ p ∷ []) (with_bucket bucket_of p bucket) }
        ensures empty { (bucket_of : ℕ → ℕ) → IsTable self.old [] [] bucket_of → result ≡ None }
        ensures no_bucket { ¬ HasBucket self.old bucket → result ≡ None }
        ensures refused { result ≡ None → AreSame self.old self.new }
        ensures within { IfSome result (λ t. t.place < self.old.places) }
        ensures places { self.new.places ≡ self.old.places }
        ensures buckets { (b : ℕ) → HasBucket self.new b ↔ HasBucket self.old b }
        ensures room { HasRoom self.old → HasRoom self.new }
    {
        let chain = self.chain_head(bucket)?;
        let used = self.used_head()?;
        let taken = self.next_taken(used)?;
        move_to(&mut self.ages, used, taken.place);
        move_to(&mut self.chains, chain, taken.place);
        Some(taken)
    }

    /// Makes a place that is in use the youngest one, in the chain of this bucket alone. Returns false, and changes nothing, if
    /// the place isn't in use or the table doesn't have the bucket.
    pub fn renew(&mut self, place: u32, bucket: u32) -> bool
        ensures renewed { (free used : List ℕ) (bucket_of : ℕ → ℕ) → IsTable self.old free used bucket_of → Contains used place → HasBucket self.old bucket
            → (result ≡ true) × IsTable self.new free (without place used ++ place ∷ []) (with_bucket bucket_of place bucket) }
        ensures unused { (free used : List ℕ) (bucket_of : ℕ → ℕ) → IsTable self.old free used bucket_of → ¬ Contains used place
            → result ≡ false }
        ensures no_bucket { ¬ HasBucket self.old bucket → result ≡ false }
        ensures refused { result ≡ false → AreSame self.old self.new }
        ensures places { self.new.places ≡ self.old.places }
        ensures buckets { (b : ℕ) → HasBucket self.new b ↔ HasBucket self.old b }
        ensures room { HasRoom self.old → HasRoom self.new }
    {
        if place >= self.places || self.chains.is_alone(place) {
            return false;
        }
        match self.heads(bucket) {
            Some((used, chain)) => {
                move_to(&mut self.ages, used, place);
                move_to(&mut self.chains, chain, place);
                true
            }
            None => false,
        }
    }

    /// Frees a place that is in use: it is the last free one, and in no chain. Returns false, and changes nothing, if the
    /// place isn't in use.
    pub fn release(&mut self, place: u32) -> bool
        ensures released { (free xs ys : List ℕ) (bucket_of : ℕ → ℕ) → IsTable self.old free (xs ++ place ∷ ys) bucket_of
            → (result ≡ true) × IsTable self.new (free ++ place ∷ []) (xs ++ ys) bucket_of }
        ensures unused { (free used : List ℕ) (bucket_of : ℕ → ℕ) → IsTable self.old free used bucket_of → ¬ Contains used place
            → result ≡ false }
        ensures refused { result ≡ false → AreSame self.old self.new }
        ensures places { self.new.places ≡ self.old.places }
        ensures buckets { (b : ℕ) → HasBucket self.new b ↔ HasBucket self.old b }
        ensures room { HasRoom self.old → HasRoom self.new }
    {
        if place >= self.places || self.chains.is_alone(place) || !self.chains.remove(place) {
            return false;
        }
        move_to(&mut self.ages, self.places, place);
        true
    }
}
