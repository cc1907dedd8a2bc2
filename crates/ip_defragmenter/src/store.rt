//! The memories of packets.
ghost use Rattle.std.specs.Prelude.{◌≡◌, ◌<◌, ◌≤◌, ℕ, length, slice_get, Some, None};
ghost use Rattle.ip_defragmenter.specs.FragmentOf.{parts_of};
ghost use Rattle.ip_defragmenter.specs.Memory.{HoldsStored, own_refusal};
ghost use Rattle.ip_defragmenter.specs.Memories.{IsStored, IsStoredIn, kept_in};
ghost use Rattle.ip_defragmenter.specs.declared.memory.PacketMemory.{PacketMemory};

use crate::{IpFragment, PacketMemory, StoreError};
use ip_reassembly::Progress;

/// Forgets what a memory holds, unless it is of the packet whose fragment comes.
fn prepare(memory: &mut PacketMemory, is_known: bool)
    ensures { (s : _) → HoldsStored memory.old s → HoldsStored memory.new (kept_in is_known s) }
{
    if !is_known {
        memory.clear();
    }
}

/// Adds a fragment that isn't refused by itself to the memory of its packet, which is cleared first if the packet is new
/// there.
fn store_one(
    memory: &mut PacketMemory,
    is_known: bool,
    fragment: &IpFragment<'_>,
) -> Result<Progress, StoreError>
    requires sound { own_refusal (parts_of fragment.now) ≡ None }
    requires short { length fragment.now.bytes.now ≤ 65535 }
    requires head { fragment.now.offset ≡ 0 → length fragment.now.headers.now ≤ 4096 }
    ensures { IsStored memory.old memory.new is_known (parts_of fragment.now) result }
{
    prepare(memory, is_known);
    memory.add_sound(fragment)
}

/// Adds a fragment that isn't refused by itself to the memory of its packet's slot.
pub(crate) fn store(
    memories: &mut [PacketMemory],
    index: usize,
    is_known: bool,
    fragment: &IpFragment<'_>,
) -> Result<Progress, StoreError>
    requires within { index < length memories.old }
    requires sound { own_refusal (parts_of fragment.now) ≡ None }
    requires short { length fragment.now.bytes.now ≤ 65535 }
    requires head { fragment.now.offset ≡ 0 → length fragment.now.headers.now ≤ 4096 }
    ensures len { length memories.new ≡ length memories.old }
    ensures others { (j : ℕ) → (j ≡ index → ⊥) → slice_get memories.new j ≡ slice_get memories.old j }
    ensures own { (m : PacketMemory) → slice_get memories.old index ≡ Some m
        → IsStoredIn m (slice_get memories.new index) is_known (parts_of fragment.now) result }
{
    store_one(&mut memories[index], is_known, fragment)
}
