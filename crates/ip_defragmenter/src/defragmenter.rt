//! Packets from their fragments.
ghost use Rattle.std.specs.Prelude.{◌≡◌, ◌<◌, ◌≤◌, ℕ, List, length, Contains, Option, Ok, Err, None, Some};
ghost use Rattle.ip_defragmenter.specs.Memory.{own_refusal};
ghost use Rattle.ip_dissect.specs.Dissection.{dissected};
ghost use Rattle.ip_defragmenter.specs.FragmentOf.{FragmentParts, parts_of, packet_fragment};
ghost use Rattle.ip_defragmenter.specs.Added.{outcome_in, is_whole, freed, free_with, used_without, IsAdded, IsAddedBy, added_nothing};
ghost use Rattle.ip_defragmenter.specs.Slots.{HoldsPackets, IsPlaced, IsUnchanged};
ghost use Rattle.ip_defragmenter.specs.declared.slots.Placement.{Placement as IsPlacement};
ghost use Rattle.ip_defragmenter.specs.declared.err.FragmentError.{FragmentError};

use crate::fragment::Reading;
use crate::memory::own_refusal;
use crate::store::store;
use crate::{
    Added, DefragmenterCounts, DropReason, IpFragment, Outcome, PacketMemory, Settings, SlotTable,
    StoreError,
};
use ip_reassembly::Progress;

/// Returns what became of a fragment, by what the memory with this index returned for it.
#[inline(always)]
fn outcome_of(index: usize, stored: Result<Progress, StoreError>) -> Outcome
    ensures { result ≡ outcome_in index stored }
{
    match stored {
        Ok(Progress::MoreWanted) => Outcome::MoreWanted,
        Ok(Progress::Whole) => Outcome::Whole(index),
        Err(error) => Outcome::Dropped(DropReason::Refused(error)),
    }
}

/// Frees a slot if its packet is whole.
#[inline(always)]
fn free_if_whole(slots: &mut SlotTable<'_>, index: usize, stored: &Result<Progress, StoreError>)
    requires within { index < length slots.old.slots.now }
    requires small { index < 4294967296 }
    ensures slots { slots.new.slots.now ≡ freed (is_whole stored.now) index slots.old.slots.now }
    ensures packets { (seed free used : List ℕ) → HoldsPackets slots.old seed free used → Contains used index
        → HoldsPackets slots.new seed (free_with (is_whole stored.now) index free) (used_without (is_whole stored.now) index used) }
{
    if let Ok(Progress::Whole) = stored {
        slots.release(index);
    }
}

/// Adds a fragment that arrived at this time in this context, as `defragment` does. Returns what became of it, and the packet
/// that was given up for it.
pub fn add_fragment(
    slots: &mut SlotTable<'_>,
    memories: &mut [PacketMemory],
    settings: &Settings,
    context: u32,
    time: u64,
    fragment: &IpFragment<'_>,
) -> Added
    requires { length slots.old.slots.now ≡ length memories.old }
    ensures { IsAdded slots.old memories.old settings.now context time (parts_of fragment.now)
        slots.new memories.new result }
{
    match own_refusal(fragment) {
        Some(error) => nothing_added(Outcome::Dropped(DropReason::Refused(error))),
        None => add_sound(slots, memories, settings, context, time, fragment),
    }
}

/// Returns what became of a packet for which no slot was used.
#[inline(always)]
fn nothing_added(outcome: Outcome) -> Added
    ensures { result ≡ added_nothing outcome }
{
    Added {
        outcome,
        slot: None,
        lost: None,
    }
}

/// Adds a fragment that isn't refused by itself.
#[inline(always)]
fn add_sound(
    slots: &mut SlotTable<'_>,
    memories: &mut [PacketMemory],
    settings: &Settings,
    context: u32,
    time: u64,
    fragment: &IpFragment<'_>,
) -> Added
    requires as_many { length slots.old.slots.now ≡ length memories.old }
    requires sound { own_refusal (parts_of fragment.now) ≡ None }
    requires short { length fragment.now.bytes.now ≤ 65535 }
    requires head { fragment.now.offset ≡ 0 → length fragment.now.headers.now ≤ 4096 }
    ensures { (o : Option IsPlacement) × IsPlaced slots.old settings.now context (parts_of fragment.now).key time o
        × IsAddedBy slots.old memories.old settings.now.seed context (parts_of fragment.now) o slots.new memories.new result }
{
    match slots.place_by(settings, context, &fragment.key, time) {
        Some(found) => {
            let stored = store(memories, found.index, found.is_known, fragment);
            free_if_whole(slots, found.index, &stored);
            Added {
                outcome: outcome_of(found.index, stored),
                slot: Some(found.index),
                lost: found.lost,
            }
        }
        None => nothing_added(Outcome::Dropped(DropReason::NoSlot)),
    }
}

/// Adds the packet at the start of `bytes`, which arrived at this time, in nanoseconds since any moment. Returns what became
/// of it, and the packet that was given up for it. If its packet is whole, the memory with the returned index has it.
///
/// A fragment goes to the slot of its packet and the memory with the slot's index (RFC 791, section 3.2; RFC 8200, section
/// 4.5); `place` says which slot, and what a context is. A fragment that is refused by itself takes no slot. All other slots
/// and memories stay as they are, but for the packet that was given up.
pub fn defragment(
    slots: &mut SlotTable<'_>,
    memories: &mut [PacketMemory],
    settings: &Settings,
    context: u32,
    time: u64,
    bytes: &[u8],
) -> Added
    requires { length slots.old.slots.now ≡ length memories.old }
    ensures not_fragment { packet_fragment (dissected bytes.now) ≡ Ok None
        → (result ≡ added_nothing Outcome.NotFragment) × IsUnchanged slots.old slots.new × (memories.new ≡ memories.old) }
    ensures unusable { (e : FragmentError) → packet_fragment (dissected bytes.now) ≡ Err e
        → (result ≡ added_nothing (Outcome.Dropped (DropReason.Unusable e))) × IsUnchanged slots.old slots.new × (memories.new ≡ memories.old) }
    ensures added { (f : FragmentParts) → packet_fragment (dissected bytes.now) ≡ Ok (Some f)
        → IsAdded slots.old memories.old settings.now context time f slots.new memories.new result }
{
    let mut reading = Reading::new();
    reading.read(bytes);
    match &reading.fragment {
        Ok(Some(fragment)) => add_fragment(slots, memories, settings, context, time, fragment),
        Ok(None) => nothing_added(Outcome::NotFragment),
        Err(error) => nothing_added(Outcome::Dropped(DropReason::Unusable(*error))),
    }
}

/// Makes packets whole from their fragments, in slots and memories of the caller's, and counts what becomes of them.
///
/// A slot that isn't free has the key of a packet which isn't whole yet, and the time of its first fragment. The memory with
/// the slot's index has the packet's fragments.
#[repr(C)]
#[derive(Drop)]
pub struct Defragmenter<'m> {
    /// The slots.
    pub slots: SlotTable<'m>,
    /// The memory of each slot.
    pub memories: &'m mut [PacketMemory],
    /// What became of the packets that were added.
    pub counts: &'m mut DefragmenterCounts,
    /// How packets get slots, and when they are given up.
    pub settings: Settings,
}

impl<'m> Defragmenter<'m> {
    ghost use Rattle.std.specs.Prelude.{◌≡◌, ◌↔◌, ℕ, List, [], length, IsTrue, if◌then◌else◌, true, false, Ok, Err, None, Some};
    ghost use Rattle.std.specs.List.{range_with_len};
    ghost use Rattle.ip_dissect.specs.Dissection.{dissected};
    ghost use Rattle.ip_defragmenter.specs.FragmentOf.{FragmentParts, packet_fragment};
    ghost use Rattle.ip_defragmenter.specs.Added.{IsAdded, added_nothing};
    ghost use Rattle.ip_defragmenter.specs.Slots.{HoldsPackets, HasRoomForSlots, IsUnchanged};
    ghost use Rattle.ip_defragmenter.specs.Counts.{counted, no_counts};
    ghost use Rattle.ip_defragmenter.specs.declared.err.FragmentError.{FragmentError};

    /// Frees all slots and sets the counts to 0, whatever the memory contains. Returns false, and changes nothing, if the
    /// slots' table has no room for them, as `SlotTable::clear` says.
    pub fn clear(&mut self) -> bool
        ensures room { IsTrue result ↔ HasRoomForSlots self.old.slots }
        ensures cleared { result ≡ true → (seed : List ℕ)
            → HoldsPackets self.new.slots seed (range_with_len 0 (length self.old.slots.slots.now)) [] }
        ensures len { length self.new.slots.slots.now ≡ length self.old.slots.slots.now }
        ensures counts { self.new.counts.now ≡ (if result then no_counts else self.old.counts.now) }
        ensures memories { self.new.memories.now ≡ self.old.memories.now }
        ensures settings { self.new.settings ≡ self.old.settings }
        ensures refused { result ≡ false → IsUnchanged self.old.slots self.new.slots }
    {
        let is_cleared = self.slots.clear();
        if is_cleared {
            *self.counts = DefragmenterCounts::new();
        }
        is_cleared
    }

    /// Adds the packet at the start of `bytes`, which arrived at this time in this context, in nanoseconds since any moment, as
    /// `defragment` does. Counts what became of it, and the packet that was given up for it.
    #[inline(always)]
    pub fn add(&mut self, context: u32, time: u64, bytes: &[u8]) -> Added
        requires { length self.old.slots.slots.now ≡ length self.old.memories.now }
        ensures not_fragment { packet_fragment (dissected bytes.now) ≡ Ok None
            → (result ≡ added_nothing Outcome.NotFragment)
            × IsUnchanged self.old.slots self.new.slots × (self.new.memories.now ≡ self.old.memories.now) }
        ensures unusable { (e : FragmentError) → packet_fragment (dissected bytes.now) ≡ Err e
            → (result ≡ added_nothing (Outcome.Dropped (DropReason.Unusable e)))
            × IsUnchanged self.old.slots self.new.slots × (self.new.memories.now ≡ self.old.memories.now) }
        ensures added { (f : FragmentParts) → packet_fragment (dissected bytes.now) ≡ Ok (Some f)
            → IsAdded self.old.slots self.old.memories.now self.old.settings context time f
            self.new.slots self.new.memories.now result }
        ensures counts { self.new.counts.now ≡ counted self.old.counts.now result }
        ensures settings { self.new.settings ≡ self.old.settings }
    {
        let added = defragment(
            &mut self.slots,
            self.memories,
            &self.settings,
            context,
            time,
            bytes,
        );
        self.counts.count(&added);
        added
    }
}
