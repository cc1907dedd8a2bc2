//! Laws of slots, proved as the contract of a call.
ghost use Rattle.std.specs.Prelude.{◌≡◌, ◌⊎◌, ◌∷◌, ◌+◌, ℕ, List, [], length, Contains, slice_get, slice_set, Option, Some, is_some, if◌then◌else◌, true};
ghost use Rattle.ip_defragmenter.specs.Added.{IsAdded};
ghost use Rattle.ip_defragmenter.specs.FragmentOf.{FragmentParts};
ghost use Rattle.ip_defragmenter.specs.Key.{IsKey};
ghost use Rattle.ip_defragmenter.specs.Memory.{HoldsStored, stored_none};
ghost use Rattle.ip_defragmenter.specs.Slot.{free_slot, pending_in, slot_with};
ghost use Rattle.ip_defragmenter.specs.Slots.{HoldsPackets, has_key, is_expired, own_slot, place_of, slot_at};
ghost use Rattle.ip_defragmenter.specs.Sound.{Arrival, IsSound};
ghost use Rattle.ip_defragmenter.specs.declared.key.FragmentKey.{FragmentKey};
ghost use Rattle.ip_defragmenter.specs.declared.memory.PacketMemory.{PacketMemory};
ghost use Rattle.ip_defragmenter.specs.declared.outcome.Added.{Added};
ghost use Rattle.ip_defragmenter.specs.declared.settings.Settings.{Settings};
ghost use Rattle.ip_defragmenter.specs.declared.pending.Loss.{Loss};
ghost use Rattle.ip_defragmenter.specs.declared.pending.Pending.{Pending};
ghost use Rattle.ip_defragmenter.specs.declared.slot.Slot.{Slot};
ghost use Rattle.ip_defragmenter.specs.declared.slots.Placement.{Placement};
ghost use Rattle.ip_defragmenter.specs.declared.slots.SlotTable.{SlotTable};

/// Proves that a slot is found by the context and the key of its packet, and by no other ones.
pub fn slots_are_found_by_their_keys()
    ensures own { (since context : ℕ) (k : FragmentKey) → IsKey k
        → has_key context k (slot_with since context k) ≡ true }
    ensures context { (since c d : ℕ) (j k : FragmentKey) → has_key c j (slot_with since d k) ≡ true
        → c ≡ d }
    ensures key { (since c d : ℕ) (j k : FragmentKey) → IsKey j → IsKey k
        → has_key c j (slot_with since d k) ≡ true → j ≡ k }
{}

/// Proves that in a valid table the slot in use that has a packet is found by the packet's context and key, and no other slot.
pub fn slots_in_use_are_found()
    ensures found { (t : SlotTable) (seed free used : List ℕ) (context i : ℕ) (k : FragmentKey) → HoldsPackets t seed free used
        → Contains used i → has_key context k (slot_at t.slots.now i) ≡ true → own_slot t.slots.now used context k ≡ Some i }
    ensures own { (slots : List Slot) (used : List ℕ) (context i : ℕ) (k : FragmentKey) → own_slot slots used context k ≡ Some i
        → Contains used i × (has_key context k (slot_at slots i) ≡ true) }
{}

/// Proves that a packet is given up for another one only if all slots are in use, or its time is over.
pub fn packets_are_given_up_for_a_reason()
    ensures { (timeout time context : ℕ) (slots : List Slot) (free used : List ℕ) (k : FragmentKey) (p : Placement) (l : Loss)
        → place_of timeout slots free used context k time ≡ Some p → p.lost ≡ Some l
        → (free ≡ []) ⊎ ((q : Pending) × (pending_in (slot_at slots p.index) ≡ Some q) × (is_expired timeout q.since time ≡ true)) }
{}

/// Proves that over any list of fragments that are added to a table which was cleared, with memories that were new, and of
/// packets that are given up by `give_up`, each memory has only fragments of its slot's packet: those of its context and key.
pub fn memories_have_fragments_of_their_packets()
    ensures begun { (t : SlotTable) (memories : List PacketMemory) (seed free : List ℕ) → HoldsPackets t seed free []
        → ((i : ℕ) (m : PacketMemory) → slice_get memories i ≡ Some m → HoldsStored m (stored_none 65535))
        → IsSound t memories [] }
    ensures added { (t u : SlotTable) (memories others : List PacketMemory) (settings : Settings) (context time : ℕ)
        (f : FragmentParts) (a : Added) (arrived : List Arrival) → length t.slots.now ≡ length memories → IsKey f.key
        → IsAdded t memories settings context time f u others a → IsSound t memories arrived
        → IsSound u others (record { context = context; fragment = f } ∷ arrived) }
    ensures given_up { (t u : SlotTable) (memories : List PacketMemory) (i : ℕ) (lost : Option Loss) (arrived : List Arrival)
        → u.slots.now ≡ (if is_some lost then slice_set t.slots.now i free_slot else t.slots.now)
        → IsSound t memories arrived → IsSound u memories arrived }
{}

/// Proves that whether a packet is given up follows from its age: how far the two times are apart, and not when they are.
pub fn packets_expire_by_their_age()
    ensures { (timeout since time later : ℕ)
        → is_expired timeout (since + later) (time + later) ≡ is_expired timeout since time }
{}
