//! Laws of memory whose bytes are 0, proved as the contract of a call.
ghost use Rattle.std.specs.Prelude.{◌≡◌, None};
ghost use Rattle.ip_defragmenter.specs.Memory.{HoldsStored, IsZeroMemory, stored_none};
ghost use Rattle.ip_defragmenter.specs.Slot.{free_slot, pending_in};
ghost use Rattle.ip_defragmenter.specs.declared.memory.PacketMemory.{PacketMemory};

/// Proves that a memory of zeros holds what a new one does: nothing, with room for 65,535 bytes. A slot of zeros is free.
pub fn zeros_are_a_new_memory()
    ensures memory { (m : PacketMemory) → IsZeroMemory m → HoldsStored m (stored_none 65535) }
    ensures slot { pending_in free_slot ≡ None }
{}
