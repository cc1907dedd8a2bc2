//! Packets from their fragments.
ghost use Rattle.std.specs.Prelude.{◌≡◌, ◌<◌, ◌≤◌, ◌++◌, ◌∷◌, [], ℕ, List, length, drop, slice_index, true, false, Ok, Err, Some, None, IsNone, IsSome, OnOk};
ghost use Rattle.ip_dissect.specs.Dissection.{dissected};
ghost use Rattle.ip_reassembly.specs.Fragment.{Fragment};
ghost use Rattle.ip_reassembly.specs.Split.{IsSplit, are_among};
ghost use Rattle.ip_lists.specs.Table.{AreSame};
ghost use Rattle.ip_defragmenter.specs.FragmentOf.{packet_fragment, parts_of};
ghost use Rattle.ip_defragmenter.specs.Added.{added_nothing};
ghost use Rattle.ip_defragmenter.specs.Counts.{counted};
ghost use Rattle.ip_defragmenter.specs.Ecn.{is_congested};
ghost use Rattle.ip_defragmenter.specs.FragmentOf.{FragmentParts};
ghost use Rattle.ip_defragmenter.specs.Memory.{WasStored, HoldsStored, AreJoinable, payload_buffer, pieces_of, points_of, stored_none, stored_all, stored_outcome};
ghost use Rattle.ip_defragmenter.specs.Sent.{IsSentIpv6, ipv6_first};
ghost use Rattle.ip_defragmenter.specs.Slots.{IsUnchanged};
ghost use Rattle.ip_defragmenter.specs.declared.err.FragmentError.{FragmentError};
ghost use Rattle.ip_defragmenter_laws.specs.Ipv6.{IsIpv6Fragment};
ghost use Rattle.ip_defragmenter_laws.specs.Run.{IsFresh};
ghost use Rattle.ip_defragmenter_laws.specs.Written.{IsMadeWhole};

use ip_defragmenter::{
    Added, Defragmenter, DropReason, IpFragment, Outcome, PacketMemory, Settings, SlotTable,
    WholeError, defragment, whole_packet_is_the_one_sent,
};
use ip_defragmenter_laws::{
    clear_in_run, defragment_in_run, fragments_are_read, fragments_make_the_packet_that_was_sent,
    give_up_in_run, packets_are_kept_where_there_is_room, tables_stay_valid,
};
use ip_reassembly::Progress;

/// Adds a packet that arrived at this time in this context. If it makes its packet whole, writes that to `out` and returns its length in
/// bytes. Returns `None` if it doesn't, or if the whole packet doesn't fit.
pub fn whole_packet(
    slots: &mut SlotTable<'_>,
    memories: &mut [PacketMemory],
    settings: &Settings,
    context: u32,
    time: u64,
    packet: &[u8],
    out: &mut [u8],
) -> Option<usize>
    requires { length slots.old.slots.now ≡ length memories.old }
    ensures other { packet_fragment (dissected packet.now) ≡ Ok None → IsNone result × IsUnchanged slots.old slots.new }
    ensures unusable { (e : FragmentError) → packet_fragment (dissected packet.now) ≡ Err e
        → IsNone result × IsUnchanged slots.old slots.new }
{
    match defragment(slots, memories, settings, context, time, packet).outcome {
        Outcome::Whole(index) => match memories.get(index) {
            Some(memory) => match memory.write(out) {
                Ok(len) => len,
                Err(_) => None,
            },
            None => None,
        },
        _ => None,
    }
}

/// Adds a packet that is no fragment: each slot, and which of them are in use, stays as it is.
pub fn add_whole(
    slots: &mut SlotTable<'_>,
    memories: &mut [PacketMemory],
    settings: &Settings,
    time: u64,
    packet: &[u8],
) -> Outcome
    requires memories { length slots.old.slots.now ≡ length memories.old }
    requires whole { packet_fragment (dissected packet.now) ≡ Ok None }
    ensures slots { slots.new.slots.now ≡ slots.old.slots.now }
    ensures table { AreSame slots.old.table slots.new.table }
{
    defragment(slots, memories, settings, 0, time, packet).outcome
}

/// Adds a packet that arrived at this time in this context, and counts it. If it makes its packet whole, writes that to `out` and returns its
/// length in bytes. Returns `None` if it doesn't, or if the whole packet doesn't fit.
pub fn counted_packet(
    defragmenter: &mut Defragmenter<'_>,
    context: u32,
    time: u64,
    packet: &[u8],
    out: &mut [u8],
) -> Option<usize>
    requires { length defragmenter.old.slots.slots.now ≡ length defragmenter.old.memories.now }
    ensures other { packet_fragment (dissected packet.now) ≡ Ok None → IsNone result
        × (defragmenter.new.counts.now ≡ counted defragmenter.old.counts.now (added_nothing Outcome.NotFragment)) }
    ensures unusable { (e : FragmentError) → packet_fragment (dissected packet.now) ≡ Err e → IsNone result
        × (defragmenter.new.counts.now ≡ counted defragmenter.old.counts.now (added_nothing (Outcome.Dropped (DropReason.Unusable e)))) }
{
    match defragmenter.add(context, time, packet).outcome {
        Outcome::Whole(index) => match defragmenter.memories.get(index) {
            Some(memory) => match memory.write(out) {
                Ok(len) => len,
                Err(_) => None,
            },
            None => None,
        },
        _ => None,
    }
}

/// Adds the two fragments of an IPv6 packet, which arrived at one time, to a table that was cleared. The packet is then whole:
/// its memory has the packet that was sent.
pub fn two_fragments(
    slots: &mut SlotTable<'_>,
    memories: &mut [PacketMemory],
    settings: &Settings,
    context: u32,
    time: u64,
    first: &[u8],
    last: &[u8],
) -> Added
    requires { length slots.old.slots.now ≡ length memories.old }
    ensures { (s : List ℕ) (n link id : ℕ) (p q : Fragment)
        → IsFresh settings.now (record { slots = slots.old; memories = memories.old })
        → IsSentIpv6 s n link → n ≤ 4096 → IsSplit (drop n s) (p ∷ q ∷ [])
        → IsIpv6Fragment s n link id p first.now → IsIpv6Fragment s n link id q last.now
        → IsMadeWhole s (record { context = context; time = time; bytes = last.now; piece = Some q; added = result })
        (record { slots = slots.new; memories = memories.new }) }
{
    fragments_are_read();
    fragments_make_the_packet_that_was_sent();
    packets_are_kept_where_there_is_room();
    let _ = defragment_in_run(slots, memories, settings, context, time, first);
    defragment_in_run(slots, memories, settings, context, time, last)
}

/// Adds any packet to a new table and clears the table. Then adds the two fragments of an IPv6 packet, which arrived at one
/// time; in between, it asks whether the time of a slot's packet is over. The packet is whole: its memory has the packet that
/// was sent.
pub fn two_fragments_after_others(
    slots: &mut SlotTable<'_>,
    memories: &mut [PacketMemory],
    settings: &Settings,
    context: u32,
    time: u64,
    other: &[u8],
    first: &[u8],
    last: &[u8],
    index: usize,
) -> Added
    requires { length slots.old.slots.now ≡ length memories.old }
    ensures { (s : List ℕ) (n link id : ℕ) (p q : Fragment)
        → IsFresh settings.now (record { slots = slots.old; memories = memories.old })
        → IsSentIpv6 s n link → n ≤ 4096 → IsSplit (drop n s) (p ∷ q ∷ [])
        → IsIpv6Fragment s n link id p first.now → IsIpv6Fragment s n link id q last.now
        → IsMadeWhole s (record { context = context; time = time; bytes = last.now; piece = Some q; added = result })
        (record { slots = slots.new; memories = memories.new }) }
{
    tables_stay_valid();
    fragments_are_read();
    fragments_make_the_packet_that_was_sent();
    packets_are_kept_where_there_is_room();
    let _ = defragment_in_run(slots, memories, settings, context, time, other);
    let _ = clear_in_run(slots);
    let _ = defragment_in_run(slots, memories, settings, context, time, first);
    let _ = give_up_in_run(slots, index, settings.timeout, time);
    defragment_in_run(slots, memories, settings, context, time, last)
}

/// Writes the whole packet of a memory that was given the fragments of an IPv6 packet, in any order and repeated, without
/// congestion on their way: it is the packet that was sent.
pub fn packet_that_was_sent(
    memory: &PacketMemory,
    out: &mut [u8],
) -> Result<Option<usize>, WholeError>
    ensures { (s : List ℕ) (n link t limit : ℕ) (pieces : List Fragment) (given : List FragmentParts)
        → IsSentIpv6 s n link
        → WasStored memory.now limit given → IsSplit (drop n s) pieces → length (drop n s) ≤ limit
        → are_among (pieces_of given) pieces ≡ true → AreJoinable (length (drop n s)) given
        → are_among pieces (pieces_of given) ≡ true → is_congested (points_of given) ≡ false
        → (stored_all (stored_none limit) given).first
        ≡ Some (record { headers = ipv6_first s n link t; link = link; number = slice_index s link })
        → OnOk result ((result ≡ Ok (Some (length s))) × (out.new ≡ s ++ drop (length s) out.old)) }
{
    whole_packet_is_the_one_sent();
    memory.write(out)
}

/// Adds a fragment to the memory of its packet. If it makes the packet whole, writes that to `out`, which has room for every
/// packet, and returns its length in bytes.
pub fn written_when_whole(
    memory: &mut PacketMemory,
    fragment: &IpFragment<'_>,
    out: &mut [u8],
) -> Option<usize>
    requires { 65575 ≤ length out.old }
    ensures { (s : _) → HoldsStored memory.old s
        → stored_outcome s (parts_of fragment.now) ≡ Ok Progress.Whole → IsSome result }
{
    match memory.add(fragment) {
        Ok(Progress::Whole) => match memory.write(out) {
            Ok(len) => len,
            Err(_) => None,
        },
        _ => None,
    }
}

/// Makes a memory ready for another packet: no fragments are left, and no byte of its arrays is written.
pub fn memory_for_another_packet(memory: &mut PacketMemory)
    ensures stored { HoldsStored memory.new (stored_none 65535) }
    ensures payload { payload_buffer memory.new ≡ payload_buffer memory.old }
    ensures short_head { memory.new.short_head ≡ memory.old.short_head }
    ensures head { memory.new.head ≡ memory.old.head }
    ensures unused { memory.new.unused ≡ memory.old.unused }
{
    memory.reset();
}

/// Adds a fragment that isn't the first one. No byte of the arrays for headers is written.
pub fn add_later(memory: &mut PacketMemory, fragment: &IpFragment<'_>) -> bool
    requires { 0 < fragment.now.offset }
    ensures short_head { memory.new.short_head ≡ memory.old.short_head }
    ensures head { memory.new.head ≡ memory.old.head }
{
    memory.add(fragment).is_ok()
}
