//! Packets from their fragments.
ghost use Rattle.std.specs.Prelude.{◌≡◌, ◌≤◌, ◌<◌, ◌+◌, ◌++◌, ◌∷◌, ◌↔◌, ℕ, List, [], length, drop, slice_get, slice_set, if◌then◌else◌, true, false, IsTrue, Ok, Err, Some, None};
ghost use Rattle.std.specs.List.{range_with_len};
ghost use Rattle.ip_dissect.specs.Dissection.{dissected};
ghost use Rattle.ip_reassembly.specs.Received.{payload_in};
ghost use Rattle.ip_lists.specs.Moves.{without};
ghost use Rattle.ip_defragmenter.specs.FragmentOf.{FragmentParts, packet_fragment};
ghost use Rattle.ip_defragmenter.specs.Added.{IsAdded, added_nothing};
ghost use Rattle.ip_defragmenter.specs.Counts.{counted, counted_loss, no_counts, added_fields};
ghost use Rattle.ip_defragmenter.specs.Ecn.{is_congested, marked};
ghost use Rattle.ip_defragmenter.specs.Memory.{HoldsStored, first_in};
ghost use Rattle.ip_defragmenter.specs.Whole.{whole_packet, whole_fault};
ghost use Rattle.ip_defragmenter.specs.Slot.{free_slot};
ghost use Rattle.ip_defragmenter.specs.Slots.{HoldsPackets, HasRoomForSlots, IsUnchanged, loss_of, slot_at};
ghost use Rattle.ip_defragmenter.specs.declared.err.FragmentError.{FragmentError};
ghost use Rattle.ip_defragmenter.specs.declared.memory.PacketMemory.{PacketMemory as HasPacket};
ghost use Rattle.ip_defragmenter.specs.declared.pending.Loss.{Loss};
ghost use Rattle.ip_defragmenter.specs.declared.outcome.Added.{Added as WasAdded};
ghost use Rattle.ip_defragmenter.specs.declared.outcome.Outcome.TheVariants.{NotFragment, Dropped};
ghost use Rattle.ip_defragmenter.specs.declared.outcome.DropReason.TheVariants.{Unusable, NoSlot};

use crate::bytes::Bytes;
use ip_defragmenter::{Added, AddedFields, Defragmenter, DropReason, Outcome, PacketMemory};

/// Calls `Defragmenter::clear`. Returns whether the slots' table has room for them.
#[unsafe(no_mangle)]
pub extern "C" fn wolfaren_defragmenter_clear(defragmenter: &mut Defragmenter<'_>) -> bool
    ensures room { IsTrue result ↔ HasRoomForSlots defragmenter.old.slots }
    ensures cleared { result ≡ true → (seed : List ℕ)
        → HoldsPackets defragmenter.new.slots seed (range_with_len 0 (length defragmenter.old.slots.slots.now)) [] }
    ensures len { length defragmenter.new.slots.slots.now ≡ length defragmenter.old.slots.slots.now }
    ensures counts { defragmenter.new.counts.now ≡ (if result then no_counts else defragmenter.old.counts.now) }
    ensures memories { defragmenter.new.memories.now ≡ defragmenter.old.memories.now }
    ensures settings { defragmenter.new.settings ≡ defragmenter.old.settings }
    ensures refused { result ≡ false → IsUnchanged defragmenter.old.slots defragmenter.new.slots }
{
    defragmenter.clear()
}

/// Calls `Defragmenter::add`, and stores what became of the packet in `added`. If there aren't as many memories as slots, there
/// is no slot for it, nothing else is changed, and it isn't counted.
#[unsafe(no_mangle)]
pub extern "C" fn wolfaren_defragmenter_add(
    defragmenter: &mut Defragmenter<'_>,
    context: u32,
    bytes: Bytes<'_>,
    time: u64,
    added: &mut AddedFields,
)
    ensures not_fragment { length defragmenter.old.slots.slots.now ≡ length defragmenter.old.memories.now
        → packet_fragment (dissected bytes.entry.slice.now) ≡ Ok None
        → (added.new ≡ added_fields (added_nothing NotFragment))
        × (defragmenter.new.counts.now ≡ counted defragmenter.old.counts.now (added_nothing NotFragment))
        × IsUnchanged defragmenter.old.slots defragmenter.new.slots
        × (defragmenter.new.memories.now ≡ defragmenter.old.memories.now) }
    ensures unusable { length defragmenter.old.slots.slots.now ≡ length defragmenter.old.memories.now
        → (e : FragmentError) → packet_fragment (dissected bytes.entry.slice.now) ≡ Err e
        → (added.new ≡ added_fields (added_nothing (Dropped (Unusable e))))
        × (defragmenter.new.counts.now ≡ counted defragmenter.old.counts.now (added_nothing (Dropped (Unusable e))))
        × IsUnchanged defragmenter.old.slots defragmenter.new.slots
        × (defragmenter.new.memories.now ≡ defragmenter.old.memories.now) }
    ensures added { length defragmenter.old.slots.slots.now ≡ length defragmenter.old.memories.now
        → (f : FragmentParts) → packet_fragment (dissected bytes.entry.slice.now) ≡ Ok (Some f)
        → (a : WasAdded) × (added.new ≡ added_fields a)
        × (defragmenter.new.counts.now ≡ counted defragmenter.old.counts.now a)
        × IsAdded defragmenter.old.slots defragmenter.old.memories.now defragmenter.old.settings context time f
        defragmenter.new.slots defragmenter.new.memories.now a }
    ensures other { (length defragmenter.old.slots.slots.now ≡ length defragmenter.old.memories.now → ⊥)
        → (added.new ≡ added_fields (added_nothing (Dropped NoSlot)))
        × IsUnchanged defragmenter.old.slots defragmenter.new.slots
        × (defragmenter.new.memories.now ≡ defragmenter.old.memories.now)
        × (defragmenter.new.counts.now ≡ defragmenter.old.counts.now) }
    ensures settings { defragmenter.new.settings ≡ defragmenter.old.settings }
{
    if defragmenter.slots.slots.len() == defragmenter.memories.len() {
        let done = defragmenter.add(context, time, bytes.slice());
        *added = done.fields();
    } else {
        *added = nothing_added().fields();
    }
}

/// Returns what became of a packet for which there is no slot.
#[inline(always)]
fn nothing_added() -> Added
    ensures { result ≡ added_nothing (Dropped NoSlot) }
{
    Added {
        outcome: Outcome::Dropped(DropReason::NoSlot),
        slot: None,
        lost: None,
    }
}

/// Calls `SlotTable::give_up` with the timeout of the settings, and counts the packet that was given up. Returns whether one
/// was.
#[unsafe(no_mangle)]
pub extern "C" fn wolfaren_defragmenter_give_up(
    defragmenter: &mut Defragmenter<'_>,
    slot: usize,
    time: u64,
) -> bool
    ensures lost { slot < defragmenter.old.slots.table.places → (l : Loss)
        → loss_of defragmenter.old.settings.timeout (slot_at defragmenter.old.slots.slots.now slot) time ≡ Some l
        → (result ≡ true) × (defragmenter.new.counts.now ≡ counted_loss defragmenter.old.counts.now l) }
    ensures kept { slot < defragmenter.old.slots.table.places
        → loss_of defragmenter.old.settings.timeout (slot_at defragmenter.old.slots.slots.now slot) time ≡ None → result ≡ false }
    ensures beyond { defragmenter.old.slots.table.places ≤ slot → result ≡ false }
    ensures slots { defragmenter.new.slots.slots.now
        ≡ (if result then slice_set defragmenter.old.slots.slots.now slot free_slot else defragmenter.old.slots.slots.now) }
    ensures packets { (seed free used : List ℕ) → HoldsPackets defragmenter.old.slots seed free used
        → HoldsPackets defragmenter.new.slots seed (if result then free ++ slot ∷ [] else free)
        (if result then without slot used else used) }
    ensures same { result ≡ false → IsUnchanged defragmenter.old.slots defragmenter.new.slots
        × (defragmenter.new.counts.now ≡ defragmenter.old.counts.now) }
    ensures memories { defragmenter.new.memories.now ≡ defragmenter.old.memories.now }
    ensures settings { defragmenter.new.settings ≡ defragmenter.old.settings }
{
    let timeout = defragmenter.settings.timeout;
    match defragmenter.slots.give_up(slot, timeout, time) {
        Some(loss) => {
            defragmenter.counts.count_loss(&loss);
            true
        }
        None => false,
    }
}

/// Calls `PacketMemory::write` for the memory with this index. Returns whether the packet is whole and was written, and stores
/// its length in bytes in `len`, which is 0 if it wasn't.
#[unsafe(no_mangle)]
pub extern "C" fn wolfaren_defragmenter_packet(
    defragmenter: &Defragmenter<'_>,
    slot: usize,
    out: &mut [u8],
    len: &mut usize,
) -> bool
    ensures beyond { length defragmenter.now.memories.now ≤ slot → result ≡ false }
    ensures not_whole { (m : HasPacket) (s : _) → slice_get defragmenter.now.memories.now slot ≡ Some m
        → HoldsStored m s → payload_in s.payload ≡ None → result ≡ false }
    ensures not_first { (m : HasPacket) → slice_get defragmenter.now.memories.now slot ≡ Some m
        → first_in m ≡ None → result ≡ false }
    ensures refused { (m : HasPacket) (s f payload : _) → slice_get defragmenter.now.memories.now slot ≡ Some m
        → HoldsStored m s → payload_in s.payload ≡ Some payload → s.first ≡ Some f
        → result ≡ false
        → whole_fault f.headers f.link (length payload) (length out.old) ≡ None → ⊥ }
    ensures written { (m : HasPacket) (s f payload : _) → slice_get defragmenter.now.memories.now slot ≡ Some m
        → HoldsStored m s → payload_in s.payload ≡ Some payload → s.first ≡ Some f
        → IsTrue result → (len.new ≡ length f.headers + length payload)
        × (out.new ≡ whole_packet (marked (is_congested s.points) f.headers) f.link f.number payload
        ++ drop len.new out.old)
        × (whole_fault f.headers f.link (length payload) (length out.old) ≡ None) }
    ensures within { len.new ≤ length out.old }
    ensures same { result ≡ false → (out.new ≡ out.old) × (len.new ≡ 0) }
{
    match defragmenter.memories.get(slot) {
        Some(memory) => write_packet(memory, out, len),
        None => {
            *len = 0;
            false
        }
    }
}

/// Writes the whole packet of a memory, and stores its length.
#[inline(always)]
fn write_packet(memory: &PacketMemory, out: &mut [u8], len: &mut usize) -> bool
    ensures not_whole { (s : _) → HoldsStored memory.now s → payload_in s.payload ≡ None
        → result ≡ false }
    ensures not_first { first_in memory.now ≡ None → result ≡ false }
    ensures refused { (s f payload : _) → HoldsStored memory.now s
        → payload_in s.payload ≡ Some payload → s.first ≡ Some f
        → result ≡ false
        → whole_fault f.headers f.link (length payload) (length out.old) ≡ None → ⊥ }
    ensures written { (s f payload : _) → HoldsStored memory.now s
        → payload_in s.payload ≡ Some payload → s.first ≡ Some f
        → IsTrue result → (len.new ≡ length f.headers + length payload)
        × (out.new ≡ whole_packet (marked (is_congested s.points) f.headers) f.link f.number payload
        ++ drop len.new out.old)
        × (whole_fault f.headers f.link (length payload) (length out.old) ≡ None) }
    ensures within { len.new ≤ length out.old }
    ensures same { result ≡ false → (out.new ≡ out.old) × (len.new ≡ 0) }
{
    *len = 0;
    match memory.write(out) {
        Ok(Some(written)) => {
            *len = written;
            true
        }
        Ok(None) => false,
        Err(_) => false,
    }
}
