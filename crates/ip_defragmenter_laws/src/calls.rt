//! The calls of which the laws speak.
ghost use Rattle.std.specs.Prelude.{◌≡◌, ◌≤◌, ◌+◌, ◌++◌, ◌↔◌, ℕ, List, Option, length, drop, true, false, Ok, None, Some, IsTrue, OnOk, OnErr};
ghost use Rattle.std.specs.Result.{result_err};
ghost use Rattle.ip_reassembly.specs.Fragment.{Fragment};
ghost use Rattle.ip_reassembly.specs.Received.{payload_in};
ghost use Rattle.ip_defragmenter.specs.Ecn.{is_congested, marked};
ghost use Rattle.ip_defragmenter.specs.Memory.{HoldsStored};
ghost use Rattle.ip_defragmenter.specs.Slots.{HasRoomForSlots, IsUnchanged};
ghost use Rattle.ip_defragmenter.specs.Whole.{whole_fault, whole_packet};
ghost use Rattle.ip_defragmenter.specs.declared.memory.PacketMemory.{PacketMemory as Memory};
ghost use Rattle.ip_defragmenter_laws.specs.Run.{IsCall, IsCleared, IsGivenUp};
ghost use Rattle.ip_defragmenter_laws.specs.Written.{HasPacket};

use ip_defragmenter::{Added, Loss, PacketMemory, Settings, SlotTable, WholeError, defragment};

/// Adds a packet as `defragment` does: one call of a run, whichever piece of a payload the packet has.
pub fn defragment_in_run(
    slots: &mut SlotTable<'_>,
    memories: &mut [PacketMemory],
    settings: &Settings,
    context: u32,
    time: u64,
    bytes: &[u8],
) -> Added
    requires { length slots.old.slots.now ≡ length memories.old }
    ensures call { (piece : Option Fragment) → IsCall settings.now
        (record { slots = slots.old; memories = memories.old }) (record { slots = slots.new; memories = memories.new })
        (record { context = context; time = time; bytes = bytes.now; piece = piece; added = result }) }
    // There are as many slots as before, so the next packet can be added.
    ensures as_many { length slots.new.slots.now ≡ length memories.new }
{
    defragment(slots, memories, settings, context, time, bytes)
}

/// Gives up the packet of the slot with this index if it isn't whole more than `timeout` nanoseconds after its first fragment,
/// as `SlotTable::give_up` does: one call of a run.
pub fn give_up_in_run(
    slots: &mut SlotTable<'_>,
    index: usize,
    timeout: u64,
    time: u64,
) -> Option<Loss>
    ensures call { (memories : List Memory) → IsGivenUp
        (record { slots = slots.old; memories = memories }) (record { slots = slots.new; memories = memories })
        (record { index = index; timeout = timeout; time = time; lost = result }) }
    ensures as_many { length slots.new.slots.now ≡ length slots.old.slots.now }
{
    slots.give_up(index, timeout, time)
}

/// Frees all slots, as `SlotTable::clear` does: one call of a run, if it returns true. After other calls of a run it does
/// (`tables_stay_valid`).
pub fn clear_in_run(slots: &mut SlotTable<'_>) -> bool
    ensures room { IsTrue result ↔ HasRoomForSlots slots.old }
    ensures call { result ≡ true → (memories : List Memory) → IsCleared
        (record { slots = slots.old; memories = memories }) (record { slots = slots.new; memories = memories }) }
    ensures as_many { length slots.new.slots.now ≡ length slots.old.slots.now }
    ensures refused { result ≡ false → IsUnchanged slots.old slots.new }
{
    slots.clear()
}

/// Writes the whole packet of a memory to the start of `out`, as `PacketMemory::write` does. If the memory has the packet that
/// was sent, by the laws of this crate, and there is room for it, writes that packet.
pub fn write_whole(memory: &PacketMemory, out: &mut [u8]) -> Result<Option<usize>, WholeError>
    ensures sent { (s : List ℕ) → HasPacket memory.now s → length s ≤ length out.old
        → (result ≡ Ok (Some (length s))) × (out.new ≡ s ++ drop (length s) out.old) }
    ensures not_whole { (s : _) → HoldsStored memory.now s → payload_in s.payload ≡ None
        → (result ≡ Ok None) × (out.new ≡ out.old) }
    ensures not_first { (s : _) → HoldsStored memory.now s → s.first ≡ None
        → (result ≡ Ok None) × (out.new ≡ out.old) }
    ensures fault { (s f payload : _) → HoldsStored memory.now s
        → payload_in s.payload ≡ Some payload → s.first ≡ Some f
        → result_err result ≡ whole_fault f.headers f.link (length payload) (length out.old) }
    ensures written { (s f payload : _) → HoldsStored memory.now s
        → payload_in s.payload ≡ Some payload → s.first ≡ Some f
        → OnOk result ((result ≡ Ok (Some (length f.headers + length payload)))
        × (out.new ≡ whole_packet (marked (is_congested s.points) f.headers) f.link f.number payload
        ++ drop (length f.headers + length payload) out.old)) }
    ensures stays { OnErr result (out.new ≡ out.old) }
{
    memory.write(out)
}
