//! Which slot a packet has.
ghost use Rattle.std.specs.Prelude.{◌≡◌, ◌<◌, ◌≤◌, ◌++◌, ◌∷◌, [], ℕ, List, length, EachIndex, Contains, slice_set, Some, None, IfSome, is_some, IsTrue, ◌↔◌, if◌then◌else◌, true, false};
ghost use Rattle.std.specs.List.{find, range_with_len};
ghost use Rattle.ip_lists.specs.Members.{members_left};
ghost use Rattle.ip_lists.specs.Moves.{without};
ghost use Rattle.ip_lists.specs.Table.{IsTable, HasRoom, HasBucket, AreSame, in_bucket, with_bucket};
ghost use Rattle.ip_defragmenter.specs.Slots.{HoldsPackets, HasRoomForSlots, IsUnchanged, HaveSameSize, IsPlaced, place_of, bucket_in, displaced_in, has_key, is_expired, lost_by, own_place, own_in, new_place, displaced_place, slot_at, buckets_of, bucket_of_key, slots_after, free_after, used_after, loss_of};
ghost use Rattle.ip_defragmenter.specs.Key.{IsKey};
ghost use Rattle.ip_defragmenter.specs.Slot.{pending_in, is_free, free_slot};
ghost use Rattle.ip_defragmenter.specs.declared.pending.Pending.{Pending as IsPending};

use crate::{FragmentKey, Loss, LossReason, Pending, Settings, Slot};
use ip_lists::{Members, Table};

/// The slot of a packet.
#[derive(Clone, Copy, Debug)]
pub struct Placement {
    /// The index of the slot.
    pub index: usize,
    /// When the packet's first fragment arrived.
    pub since: u64,
    /// Whether the slot has fragments of the packet already. If not, what was received in it is to be forgotten.
    pub is_known: bool,
    /// The packet that was given up for it.
    pub lost: Option<Loss>,
}

/// Slots of packets, and the table by which they are found and given up, in memory of the caller's.
///
/// A packet's slot is in the chain of the bucket that the hash of its context and key selects. The table has as many places as
/// there are slots, and should have about as many buckets. Whatever the memory contains, no call fails. After `clear` all slots
/// are free, and each call keeps the table valid.
#[repr(C)]
#[derive(Drop)]
pub struct SlotTable<'m> {
    /// The slots.
    pub slots: &'m mut [Slot],
    /// Which slots are free and which are in use: a place is the index of a slot.
    pub table: Table<'m>,
}

/// Returns whether a packet is given up: whether its first fragment arrived longer ago than the timeout, or at a time that
/// is further in the future.
#[inline(always)]
fn is_expired(timeout: u64, since: u64, time: u64) -> bool
    ensures { result ≡ is_expired timeout since time }
{
    since.abs_diff(time) > timeout
}

/// Returns the loss of a packet.
#[inline(always)]
fn lost_by(reason: LossReason, pending: &Pending) -> Loss
    ensures { result ≡ lost_by reason pending.now }
{
    Loss {
        context: pending.context,
        key: pending.key,
        reason,
    }
}

/// Returns the place of a packet in the slot that has it.
#[inline(always)]
fn own_place(timeout: u64, index: usize, pending: &Pending, time: u64) -> Placement
    ensures place { result ≡ own_place timeout index pending.now time }
    ensures index { result.index ≡ index }
{
    if is_expired(timeout, pending.since, time) {
        Placement {
            index,
            since: time,
            is_known: false,
            lost: Some(lost_by(LossReason::TimedOut, pending)),
        }
    } else {
        Placement {
            index,
            since: pending.since,
            is_known: true,
            lost: None,
        }
    }
}

/// Returns the place of a packet in the slot of another one, which is given up.
#[inline(always)]
fn displaced_place(timeout: u64, index: usize, pending: &Pending, time: u64) -> Placement
    ensures { result ≡ displaced_place timeout index pending.now time }
{
    let reason = if is_expired(timeout, pending.since, time) {
        LossReason::TimedOut
    } else {
        LossReason::Displaced
    };
    Placement {
        index,
        since: time,
        is_known: false,
        lost: Some(lost_by(reason, pending)),
    }
}

/// Returns the place of a packet in a free slot.
#[inline(always)]
fn new_place(index: usize, time: u64) -> Placement
    ensures { result ≡ new_place index time }
{
    Placement {
        index,
        since: time,
        is_known: false,
        lost: None,
    }
}

/// Returns the place of a new packet in a slot, whose packet, if it has one, is given up.
#[inline(always)]
fn place_in(timeout: u64, slot: &Slot, index: usize, time: u64) -> Placement
    ensures free { pending_in slot.now ≡ None → result ≡ new_place index time }
    ensures displaced { (p : IsPending) → pending_in slot.now ≡ Some p → result ≡ displaced_place timeout index p time }
    ensures index { result.index ≡ index }
    ensures anew { result.is_known ≡ false }
{
    match slot.pending() {
        Some(pending) => displaced_place(timeout, index, &pending, time),
        None => new_place(index, time),
    }
}

/// Returns whether the slot with this index is that of the packet with this key in this context.
#[inline(always)]
fn has_key_at(slots: &[Slot], place: u32, context: u32, key: &FragmentKey) -> bool
    ensures { result ≡ has_key context key.now (slot_at slots.now place) }
{
    match slots.get(place as usize) {
        Some(slot) => slot.has_key(context, key),
        None => false,
    }
}

/// Returns the first of these slots that is that of the packet with this key in this context.
#[inline(always)]
fn find_in(slots: &[Slot], mut places: Members<'_>, context: u32, key: &FragmentKey) -> Option<u32>
    ensures first { result ≡ find (λ p. has_key context key.now (slot_at slots.now p)) (members_left places.entry) }
    ensures has { IfSome result (λ p. has_key context key.now (slot_at slots.now p) ≡ true) }
{
    places.find(|place| has_key_at(slots, *place, context, key))
}

/// Returns the bucket of a packet, if there are buckets, and numbers for them.
#[inline(always)]
fn bucket_of(table: &Table<'_>, seed: &[u64; 2], context: u32, key: &FragmentKey) -> Option<u32>
    ensures bucket { IfSome result (λ b. b ≡ bucket_of_key seed.now (buckets_of table.now) context key.now) }
    ensures within { IfSome result (λ b. HasBucket table.now b) }
    ensures key { IfSome result (λ b. IsKey key.now) }
    ensures exists { HasRoom table.now → HasBucket table.now 0 → is_some result ≡ true }
{
    let buckets = table
        .chains
        .next
        .len()
        .saturating_sub(table.places as usize);
    if buckets == 0 {
        return None;
    }
    let bucket = key.hash(seed, context) % buckets as u64;
    if bucket < 4_294_967_296 {
        Some(bucket as u32)
    } else {
        None
    }
}

/// Returns whether the arrays of a table have room for its places and for the heads of its lists.
fn has_room(table: &Table<'_>) -> bool
    ensures { IsTrue result ↔ HasRoom table.now }
{
    let ages = table.ages.next.len();
    let chains = table.chains.next.len();
    (table.places as usize) + 1 < ages
        && table.ages.previous.len() == ages
        && ages <= 4_294_967_296
        && table.places as usize <= chains
        && table.chains.previous.len() == chains
        && chains <= 4_294_967_296
}

/// Frees slots.
fn free_all(slots: &mut [Slot])
    ensures { EachIndex slots.new (λ i. slot_at slots.new i ≡ free_slot) }
{
    for slot in slots.iter_mut() {
        *slot = Slot::free();
    }
}

impl<'m> SlotTable<'m> {
    /// Returns whether the table has a place for each slot, a bucket, and room for their links.
    fn has_room(&self) -> bool
        ensures { IsTrue result ↔ HasRoomForSlots self.now }
    {
        self.table.places as usize == self.slots.len()
            && has_room(&self.table)
            && (self.table.places as usize) < self.table.chains.next.len()
    }

    /// Frees all slots, whatever the memory contains. Returns false, and changes nothing, if the table doesn't have a place for
    /// each slot and a bucket, or no room for their links: of ages two more than slots, of chains one for each slot and each
    /// bucket, and of both at most 2^32.
    pub fn clear(&mut self) -> bool
        ensures room { IsTrue result ↔ HasRoomForSlots self.old }
        ensures cleared { result ≡ true → (seed : List ℕ) → HoldsPackets self.new seed (range_with_len 0 (length self.old.slots.now)) [] }
        ensures len { length self.new.slots.now ≡ length self.old.slots.now }
        ensures refused { result ≡ false → IsUnchanged self.old self.new }
    {
        if !self.has_room() {
            return false;
        }
        free_all(self.slots);
        self.table.clear();
        true
    }

    /// Returns the slot in the chain of a bucket that is that of the packet with this key in this context.
    #[inline(always)]
    fn find_own(&self, bucket: u32, context: u32, key: &FragmentKey) -> Option<u32>
        ensures first { (free used : List ℕ) (bucket_of : ℕ → ℕ) → IsTable self.now.table free used bucket_of
            → result ≡ find (λ p. has_key context key.now (slot_at self.now.slots.now p)) (in_bucket bucket_of bucket used) }
        ensures has { IfSome result (λ p. has_key context key.now (slot_at self.now.slots.now p) ≡ true) }
        ensures within { IfSome result (λ p. p < length self.now.slots.now) }
        ensures used { IfSome result (λ p. is_free (slot_at self.now.slots.now p) ≡ false) }
    {
        find_in(self.slots, self.table.chain(bucket), context, key)
    }

    /// Returns the place of a packet in the slot that has it, in this bucket. If its time is over, the packet begins anew there,
    /// and is the youngest one.
    #[inline(always)]
    fn place_own(&mut self, timeout: u64, place: u32, bucket: u32, time: u64) -> Option<Placement>
        requires within { place < length self.old.slots.now }
        requires used { is_free (slot_at self.old.slots.now place) ≡ false }
        ensures place { result ≡ own_in timeout self.old.slots.now time place }
        ensures index { IfSome result (λ p. p.index ≡ place) }
        ensures slots { self.new.slots.now ≡ self.old.slots.now }
        ensures table { (free used : List ℕ) (bucket_of : ℕ → ℕ) → IsTable self.old.table free used bucket_of → Contains used place
            → HasBucket self.old.table bucket → bucket_of place ≡ bucket
            → IsTable self.new.table free (used_after used result) (with_bucket bucket_of place bucket) }
        ensures none { result ≡ None → AreSame self.old.table self.new.table }
        ensures size { HaveSameSize self.old.table self.new.table }
    {
        let pending = self.slots[place as usize].pending()?;
        let found = own_place(timeout, place as usize, &pending, time);
        if !found.is_known {
            self.table.renew(place, bucket);
        }
        Some(found)
    }

    /// Returns the place of a new packet in this bucket: the first free slot or, only if there is none, the slot that has had its
    /// packet longest.
    fn place_anew(&mut self, timeout: u64, bucket: u32, time: u64) -> Option<Placement>
        requires { self.old.table.places ≡ length self.old.slots.now }
        ensures free { (p : ℕ) (free used : List ℕ) (bucket_of : ℕ → ℕ) → IsTable self.old.table (p ∷ free) used bucket_of
            → HasBucket self.old.table bucket → is_free (slot_at self.old.slots.now p) ≡ true
            → (result ≡ Some (new_place p time)) × IsTable self.new.table free (used ++ p ∷ []) (with_bucket bucket_of p bucket) }
        ensures oldest { (p : ℕ) (used : List ℕ) (bucket_of : ℕ → ℕ) → IsTable self.old.table [] (p ∷ used) bucket_of
            → HasBucket self.old.table bucket → is_free (slot_at self.old.slots.now p) ≡ false
            → (result ≡ displaced_in timeout self.old.slots.now time p)
            × IsTable self.new.table [] (used ++ p ∷ []) (with_bucket bucket_of p bucket) }
        ensures empty { (bucket_of : ℕ → ℕ) → IsTable self.old.table [] [] bucket_of → result ≡ None }
        ensures within { IfSome result (λ p. p.index < length self.old.slots.now) }
        ensures anew { IfSome result (λ p. p.is_known ≡ false) }
        ensures slots { self.new.slots.now ≡ self.old.slots.now }
        ensures none { result ≡ None → AreSame self.old.table self.new.table }
        ensures size { HaveSameSize self.old.table self.new.table }
    {
        let index = self.table.take(bucket)?.place as usize;
        Some(place_in(timeout, &self.slots[index], index, time))
    }

    /// Returns the place of a packet in this bucket.
    #[inline(always)]
    fn place_in_bucket(
        &mut self,
        timeout: u64,
        bucket: u32,
        context: u32,
        key: &FragmentKey,
        time: u64,
    ) -> Option<Placement>
        requires { self.old.table.places ≡ length self.old.slots.now }
        ensures place { (seed free used : List ℕ) → HoldsPackets self.old seed free used → HasBucket self.old.table bucket
            → bucket ≡ bucket_of_key seed (buckets_of self.old.table) context key.now
            → result ≡ place_of timeout self.old.slots.now free used context key.now time }
        ensures table { (seed free used : List ℕ) → HoldsPackets self.old seed free used → HasBucket self.old.table bucket
            → bucket ≡ bucket_of_key seed (buckets_of self.old.table) context key.now
            → IfSome result (λ p. IsTable self.new.table (free_after free result) (used_after used result)
            (with_bucket (bucket_in seed (buckets_of self.old.table) self.old.slots.now) p.index bucket)) }
        ensures known { IfSome result (λ p. p.is_known ≡ true → has_key context key.now (slot_at self.old.slots.now p.index) ≡ true) }
        ensures within { IfSome result (λ p. p.index < length self.old.slots.now) }
        ensures slots { self.new.slots.now ≡ self.old.slots.now }
        ensures none { result ≡ None → AreSame self.old.table self.new.table }
        ensures size { HaveSameSize self.old.table self.new.table }
    {
        match self.find_own(bucket, context, key) {
            Some(place) => self.place_own(timeout, place, bucket, time),
            None => self.place_anew(timeout, bucket, time),
        }
    }

    /// Returns the slot of the packet with this key in this context, to which a fragment arrived at this time, in nanoseconds
    /// since any moment. Makes it the packet's, if it wasn't. Returns `None` if there are no slots.
    ///
    /// A context is a number of the caller's for where fragments arrive, such as an interface and a VLAN: fragments of two
    /// contexts are of two packets.
    ///
    /// A packet that isn't whole at the timeout after its first fragment is given up when the next one arrives, and the
    /// fragment begins a new one in its slot. Otherwise a packet that has no slot gets a free one. Only if all slots are in use,
    /// the packet that has been in its slot longest is given up.
    ///
    /// A packet whose first fragment arrived in the future, as times aren't always in order, is as old as that time is far
    /// away.
    pub fn place(
        &mut self,
        settings: &Settings,
        context: u32,
        key: FragmentKey,
        time: u64,
    ) -> Option<Placement>
        ensures placed { IsPlaced self.old settings.now context key time result }
        ensures slots { self.new.slots.now ≡ slots_after self.old.slots.now context key result }
        ensures packets { (free used : List ℕ) → HoldsPackets self.old settings.now.seed free used
            → HoldsPackets self.new settings.now.seed (free_after free result) (used_after used result) }
        ensures none { result ≡ None → AreSame self.old.table self.new.table }
    {
        self.place_by(settings, context, &key, time)
    }

    /// Returns the slot of the packet with this key, as `place` does. A key that isn't moved is compared 16 bytes at a time.
    #[inline(always)]
    pub(crate) fn place_by(
        &mut self,
        settings: &Settings,
        context: u32,
        key: &FragmentKey,
        time: u64,
    ) -> Option<Placement>
        ensures placed { IsPlaced self.old settings.now context key.now time result }
        ensures slots { self.new.slots.now ≡ slots_after self.old.slots.now context key.now result }
        ensures packets { (free used : List ℕ) → HoldsPackets self.old settings.now.seed free used
            → HoldsPackets self.new settings.now.seed (free_after free result) (used_after used result) }
        ensures none { result ≡ None → AreSame self.old.table self.new.table }
        ensures within { IfSome result (λ p. (p.index < length self.new.slots.now) × (p.index < 4294967296)) }
    {
        if self.table.places as usize != self.slots.len() {
            return None;
        }
        let bucket = bucket_of(&self.table, &settings.seed, context, key)?;
        let found = self.place_in_bucket(settings.timeout, bucket, context, key, time)?;
        self.slots[found.index].hold(context, key, found.since);
        Some(found)
    }

    /// Frees the slot of a packet.
    #[inline(always)]
    pub(crate) fn release(&mut self, index: usize)
        requires within { index < length self.old.slots.now }
        requires small { index < 4294967296 }
        ensures slots { self.new.slots.now ≡ slice_set self.old.slots.now index free_slot }
        ensures packets { (seed free used : List ℕ) → HoldsPackets self.old seed free used → Contains used index
            → HoldsPackets self.new seed (free ++ index ∷ []) (without index used) }
    {
        self.slots[index] = Slot::free();
        self.table.release(index as u32);
    }

    /// Returns the loss of the packet of the slot with this index, if it isn't whole after the timeout.
    #[inline(always)]
    fn loss_at(&self, index: usize, timeout: u64, time: u64) -> Option<Loss>
        ensures lost { index < self.now.table.places → result ≡ loss_of timeout (slot_at self.now.slots.now index) time }
        ensures beyond { self.now.table.places ≤ index → result ≡ None }
        ensures within { IfSome result (λ l. (index < length self.now.slots.now) × (index < self.now.table.places) × (index < 4294967296)) }
    {
        if index >= self.table.places as usize {
            return None;
        }
        let pending = self.slots.get(index)?.pending()?;
        if is_expired(timeout, pending.since, time) {
            Some(lost_by(LossReason::TimedOut, &pending))
        } else {
            None
        }
    }

    /// Gives up the packet of the slot with this index if it isn't whole more than `timeout` nanoseconds after its first
    /// fragment, and frees the slot.
    pub fn give_up(&mut self, index: usize, timeout: u64, time: u64) -> Option<Loss>
        ensures lost { index < self.old.table.places → result ≡ loss_of timeout (slot_at self.old.slots.now index) time }
        ensures beyond { self.old.table.places ≤ index → result ≡ None }
        ensures slots { self.new.slots.now ≡ (if is_some result then slice_set self.old.slots.now index free_slot else self.old.slots.now) }
        ensures packets { (seed free used : List ℕ) → HoldsPackets self.old seed free used
            → HoldsPackets self.new seed (if is_some result then free ++ index ∷ [] else free) (if is_some result then without index used else used) }
        ensures kept { result ≡ None → AreSame self.old.table self.new.table }
    {
        match self.loss_at(index, timeout, time) {
            Some(loss) => {
                self.release(index);
                Some(loss)
            }
            None => None,
        }
    }
}
