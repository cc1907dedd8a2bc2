//! Circular lists through two arrays.
use crate::Members;
use crate::arrays::{leads, link_of, make_alone, member_after, rewire};

/// The places before and after a place.
#[derive(Clone, Copy)]
struct Neighbours {
    before: u32,
    after: u32,
}

/// Circular lists of places, which are the indexes of two arrays. The caller chooses which places are heads of lists; each of
/// the others is a member of a list or in none.
///
/// Whatever the arrays contain, no call fails. After `clear` they agree, and each call keeps it so.
#[repr(C)]
#[derive(Drop)]
pub struct Links<'m> {
    /// The place after each place.
    pub next: &'m mut [u32],
    /// The place before each place.
    pub previous: &'m mut [u32],
}

impl<'m> Links<'m> {
    ghost use Rattle.std.specs.Prelude.{◌≡◌, ◌≢◌, ◌↔◌, ℕ, ◌<◌, ◌≤◌, ◌^◌, ◌++◌, ◌∷◌, [], List, length, slice_get, slice_set, Some, IfSome, is_none, All, Contains, IsTrue, true, false};
    ghost use Rattle.ip_lists.specs.Lists.{AreInverse, AreNeighbours, HasNeighbours, IsAlone, CanAppend, IsList};
    ghost use Rattle.ip_lists.specs.Members.{members_after, members_left};

    /// Takes each place out of its list, so that it leads to itself.
    pub fn clear(&mut self)
        requires as_many { length self.old.previous.now ≡ length self.old.next.now }
        requires few { length self.old.next.now ≤ 2 ^ 32 }
        ensures len { length self.new.next.now ≡ length self.old.next.now }
        ensures linked { AreInverse self.new.next.now self.new.previous.now }
        ensures empty { (h : ℕ) → h < length self.new.next.now → IsList self.new.next.now h [] }
    {
        make_alone(self.next);
        make_alone(self.previous);
    }

    /// Returns whether a place is in no list.
    #[inline(always)]
    pub fn is_alone(&self, place: u32) -> bool
        ensures { IsTrue result ↔ IsAlone self.now.next.now self.now.previous.now place }
    {
        leads(self.next, place, place) && leads(self.previous, place, place)
    }

    /// Returns the places before and after a place, if their links lead back to it.
    #[inline(always)]
    fn neighbours(&self, place: u32) -> Option<Neighbours>
        ensures found { IfSome result (λ n. AreNeighbours self.now.next.now self.now.previous.now n.before place
            × AreNeighbours self.now.next.now self.now.previous.now place n.after) }
        ensures none { is_none result ≡ true → ¬ HasNeighbours self.now.next.now self.now.previous.now place }
    {
        let before = link_of(self.previous, place)?;
        let after = link_of(self.next, place)?;
        if leads(self.next, before, place) && leads(self.previous, after, place) {
            Some(Neighbours { before, after })
        } else {
            None
        }
    }

    /// Returns the place before a head, if it can be followed by another place, which is in no list.
    #[inline(always)]
    fn last_for(&self, head: u32, place: u32) -> Option<u32>
        ensures found { IfSome result (λ l. (place ≢ head) × IsAlone self.now.next.now self.now.previous.now place
            × AreNeighbours self.now.next.now self.now.previous.now l head) }
        ensures none { is_none result ≡ true → ¬ CanAppend self.now.next.now self.now.previous.now head place }
    {
        if place == head || !self.is_alone(place) {
            return None;
        }
        let last = link_of(self.previous, head)?;
        if leads(self.next, last, head) {
            Some(last)
        } else {
            None
        }
    }

    /// Returns the first member of the list of a head, or `None` if it is empty.
    #[inline(always)]
    pub fn first(&self, head: u32) -> Option<u32>
        ensures link { (p : ℕ) → (result ≡ Some p) ↔ ((slice_get self.now.next.now head ≡ Some p) × (p ≢ head) × (p < length self.now.next.now)) }
        ensures list { (xs : List ℕ) → IsList self.now.next.now head xs → result ≡ slice_get xs 0 }
    {
        member_after(self.next, head, head)
    }

    /// Returns the member after this one in the list of a head, or `None` if it is the last one.
    #[inline(always)]
    pub fn after(&self, head: u32, place: u32) -> Option<u32>
        ensures link { (p : ℕ) → (result ≡ Some p) ↔ ((slice_get self.now.next.now place ≡ Some p) × (p ≢ head) × (p < length self.now.next.now)) }
        ensures list { (xs ys : List ℕ) → IsList self.now.next.now head (xs ++ place ∷ ys) → result ≡ slice_get ys 0 }
    {
        member_after(self.next, head, place)
    }

    /// Returns the members of the list of a head, one after another. Of arrays that don't agree, these are at most as many
    /// places as the arrays have.
    #[inline(always)]
    pub fn members(&self, head: u32) -> Members<'_>
        ensures walk { members_left result ≡ members_after self.now.next.now head head (length self.now.next.now) }
        ensures few { length (members_left result) ≤ length self.now.next.now }
        ensures within { All (λ p. p < length self.now.next.now) (members_left result) }
        ensures list { (xs : List ℕ) → IsList self.now.next.now head xs → members_left result ≡ xs }
        ensures all { AreInverse self.now.next.now self.now.previous.now → head < length self.now.next.now
            → IsList self.now.next.now head (members_left result) }
    {
        Members {
            next: self.next,
            head,
            place: head,
            left: self.next.len(),
        }
    }

    /// Takes a place out of its list. Returns false, and changes nothing, if the place is beyond the arrays, or if its
    /// neighbours don't lead back to it.
    pub fn remove(&mut self, place: u32) -> bool
        ensures len { length self.new.next.now ≡ length self.old.next.now }
        ensures previous_len { length self.new.previous.now ≡ length self.old.previous.now }
        ensures result { IsTrue result ↔ HasNeighbours self.old.next.now self.old.previous.now place }
        ensures refused { result ≡ false → (self.new.next.now ≡ self.old.next.now) × (self.new.previous.now ≡ self.old.previous.now) }
        ensures next { (a b : ℕ) → AreNeighbours self.old.next.now self.old.previous.now a place
            → AreNeighbours self.old.next.now self.old.previous.now place b
            → self.new.next.now ≡ slice_set (slice_set self.old.next.now a b) place place }
        ensures previous { (a b : ℕ) → AreNeighbours self.old.next.now self.old.previous.now a place
            → AreNeighbours self.old.next.now self.old.previous.now place b
            → self.new.previous.now ≡ slice_set (slice_set self.old.previous.now b a) place place }

        // In arrays that agree:
        ensures done { AreInverse self.old.next.now self.old.previous.now → place < length self.old.next.now → result ≡ true }
        ensures linked { AreInverse self.old.next.now self.old.previous.now → AreInverse self.new.next.now self.new.previous.now }
        ensures alone { result ≡ true → IsAlone self.new.next.now self.new.previous.now place }
        ensures taken { AreInverse self.old.next.now self.old.previous.now → (h : ℕ) (xs ys : List ℕ) → h ≢ place
            → IsList self.old.next.now h (xs ++ place ∷ ys) → IsList self.new.next.now h (xs ++ ys) }
        ensures others { AreInverse self.old.next.now self.old.previous.now → (h : ℕ) (zs : List ℕ) → h ≢ place → ¬ Contains zs place
            → IsList self.old.next.now h zs → IsList self.new.next.now h zs }
    {
        match self.neighbours(place) {
            Some(Neighbours { before, after }) => {
                rewire(self.next, before, after, place, place);
                rewire(self.previous, after, before, place, place);
                true
            }
            None => false,
        }
    }

    /// Appends a place that is in no list to the list of a head. Returns false, and changes nothing, if the place is in a list
    /// or is the head, if it or the head is beyond the arrays, or if the place before the head doesn't lead back to it.
    pub fn push_back(&mut self, head: u32, place: u32) -> bool
        ensures len { length self.new.next.now ≡ length self.old.next.now }
        ensures previous_len { length self.new.previous.now ≡ length self.old.previous.now }
        ensures result { IsTrue result ↔ CanAppend self.old.next.now self.old.previous.now head place }
        ensures refused { result ≡ false → (self.new.next.now ≡ self.old.next.now) × (self.new.previous.now ≡ self.old.previous.now) }
        ensures next { (l : ℕ) → result ≡ true → AreNeighbours self.old.next.now self.old.previous.now l head
            → self.new.next.now ≡ slice_set (slice_set self.old.next.now l place) place head }
        ensures previous { (l : ℕ) → result ≡ true → AreNeighbours self.old.next.now self.old.previous.now l head
            → self.new.previous.now ≡ slice_set (slice_set self.old.previous.now head place) place l }

        // In arrays that agree:
        ensures done { AreInverse self.old.next.now self.old.previous.now → head < length self.old.next.now
            → place ≢ head → IsAlone self.old.next.now self.old.previous.now place → result ≡ true }
        ensures linked { AreInverse self.old.next.now self.old.previous.now → AreInverse self.new.next.now self.new.previous.now }
        ensures appended { AreInverse self.old.next.now self.old.previous.now → result ≡ true → (xs : List ℕ)
            → IsList self.old.next.now head xs → IsList self.new.next.now head (xs ++ place ∷ []) }
        ensures others { AreInverse self.old.next.now self.old.previous.now → result ≡ true → (h : ℕ) (zs : List ℕ) → h ≢ head → h ≢ place
            → ¬ Contains zs head → IsList self.old.next.now h zs → IsList self.new.next.now h zs }
        ensures through { AreInverse self.old.next.now self.old.previous.now → result ≡ true → (h : ℕ) (xs ys : List ℕ) → h ≢ head → h ≢ place
            → IsList self.old.next.now h (xs ++ head ∷ ys) → IsList self.new.next.now h (xs ++ place ∷ head ∷ ys) }
    {
        match self.last_for(head, place) {
            Some(last) => {
                rewire(self.next, last, place, place, head);
                rewire(self.previous, head, place, place, last);
                true
            }
            None => false,
        }
    }
}
