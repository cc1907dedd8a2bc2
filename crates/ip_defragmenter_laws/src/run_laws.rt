//! Laws of runs, proved as the contract of a call.
ghost use Rattle.std.specs.Prelude.{◌≡◌, ◌≤◌, ◌∷◌, ℕ, List, length, drop, Some, true, false};
ghost use Rattle.ip_reassembly.specs.Fragment.{Fragment};
ghost use Rattle.ip_reassembly.specs.Split.{IsSplit, are_among};
ghost use Rattle.ip_defragmenter.specs.Sent.{IsSentIpv4, IsSentIpv6};
ghost use Rattle.ip_defragmenter.specs.Key.{IsKey};
ghost use Rattle.ip_defragmenter.specs.Memory.{WasStored};
ghost use Rattle.ip_defragmenter.specs.Slots.{HoldsPackets};
ghost use Rattle.ip_defragmenter.specs.declared.key.FragmentKey.{FragmentKey};
ghost use Rattle.ip_defragmenter.specs.declared.memory.PacketMemory.{PacketMemory};
ghost use Rattle.ip_defragmenter.specs.declared.outcome.Outcome.TheVariants.{MoreWanted};
ghost use Rattle.ip_defragmenter.specs.declared.settings.Settings.{Settings};
ghost use Rattle.ip_defragmenter_laws.specs.Arrived.{Arrived, AreArrived, arrived_parts, arrived_pieces};
ghost use Rattle.ip_defragmenter_laws.specs.Ipv4.{IsIpv4Fragment, ipv4_key, ipv4_payload};
ghost use Rattle.ip_defragmenter_laws.specs.Ipv6.{IsIpv6Fragment, ipv6_key};
ghost use Rattle.ip_defragmenter_laws.specs.Pending.{HasFragments, IsPending, fragments_in};
ghost use Rattle.ip_defragmenter_laws.specs.Room.{AreNamed, AreTimely, NothingLost, PacketName};
ghost use Rattle.ip_defragmenter_laws.specs.Run.{Adds, AreCalls, AreKept, Call, IsFresh, IsCallRun, Step, TableState, pieces_in};
ghost use Rattle.ip_defragmenter_laws.specs.Written.{HasPacket, IsMadeWhole};

/// Proves that a table stays valid over any run: after any calls of `defragment`, `give_up` and `clear`.
pub fn tables_stay_valid()
    ensures { (settings : Settings) (start end : TableState) (calls : List Step) → IsFresh settings start
        → IsCallRun settings start calls end → (free : List ℕ) × (used : List ℕ) × HoldsPackets end.slots settings.seed free used }
{}

/// Proves that the fragments of a packet that was sent, in any order and repeated, among any packets that aren't fragments of
/// it, make it whole with the call that adds the last missing one, and no earlier, unless a call reported that the packet was
/// given up: the packet's payload is split into pieces, each fragment has one of them, and each piece arrived since the table
/// was last cleared. In between, `give_up` may be called with any slots and times.
pub fn fragments_make_the_packet_that_was_sent()
    ensures ipv4 { (s : List ℕ) (pieces : List Fragment) (settings : Settings) (context : ℕ) (start end : TableState) (last : Call)
        (calls : List Step) → IsSentIpv4 s → IsSplit (ipv4_payload s) pieces → IsFresh settings start
        → IsCallRun settings start (Adds last ∷ calls) end → AreCalls (IsIpv4Fragment s) pieces context (ipv4_key s) (Adds last ∷ calls)
        → AreKept context (ipv4_key s) (Adds last ∷ calls)
        → are_among pieces (pieces_in calls) ≡ false → are_among pieces (pieces_in (Adds last ∷ calls)) ≡ true
        → IsMadeWhole s last end }
    ensures ipv4_wanted { (s : List ℕ) (pieces : List Fragment) (p : Fragment) (settings : Settings) (context : ℕ)
        (start end : TableState) (last : Call) (calls : List Step) → IsSentIpv4 s → IsSplit (ipv4_payload s) pieces
        → IsFresh settings start → IsCallRun settings start (Adds last ∷ calls) end
        → AreCalls (IsIpv4Fragment s) pieces context (ipv4_key s) (Adds last ∷ calls)
        → AreKept context (ipv4_key s) (Adds last ∷ calls) → last.piece ≡ Some p
        → are_among pieces (pieces_in (Adds last ∷ calls)) ≡ false → last.added.outcome ≡ MoreWanted }
    ensures ipv6 { (s : List ℕ) (n link id : ℕ) (pieces : List Fragment) (settings : Settings) (context : ℕ) (start end : TableState)
        (last : Call) (calls : List Step) → IsSentIpv6 s n link → n ≤ 4096 → IsSplit (drop n s) pieces → IsFresh settings start
        → IsCallRun settings start (Adds last ∷ calls) end → AreCalls (IsIpv6Fragment s n link id) pieces context (ipv6_key s id) (Adds last ∷ calls)
        → AreKept context (ipv6_key s id) (Adds last ∷ calls)
        → are_among pieces (pieces_in calls) ≡ false → are_among pieces (pieces_in (Adds last ∷ calls)) ≡ true
        → IsMadeWhole s last end }
    ensures ipv6_wanted { (s : List ℕ) (n link id : ℕ) (pieces : List Fragment) (p : Fragment) (settings : Settings) (context : ℕ)
        (start end : TableState) (last : Call) (calls : List Step) → IsSentIpv6 s n link → n ≤ 4096 → IsSplit (drop n s) pieces
        → IsFresh settings start → IsCallRun settings start (Adds last ∷ calls) end
        → AreCalls (IsIpv6Fragment s n link id) pieces context (ipv6_key s id) (Adds last ∷ calls)
        → AreKept context (ipv6_key s id) (Adds last ∷ calls) → last.piece ≡ Some p
        → are_among pieces (pieces_in (Adds last ∷ calls)) ≡ false → last.added.outcome ≡ MoreWanted }
{}

/// Proves that the fragments of a packet that was sent, in any order and repeated, make it whole in one memory: the memory was
/// new, then each fragment that was read was added to it, and each piece arrived.
pub fn fragments_in_one_memory_are_the_packet()
    ensures ipv4 { (s : List ℕ) (pieces : List Fragment) (arrived : List Arrived) (m : PacketMemory) → IsSentIpv4 s
        → IsSplit (ipv4_payload s) pieces → AreArrived (IsIpv4Fragment s) pieces arrived
        → are_among pieces (arrived_pieces arrived) ≡ true → WasStored m 65535 (arrived_parts arrived) → HasPacket m s }
    ensures ipv6 { (s : List ℕ) (n link id : ℕ) (pieces : List Fragment) (arrived : List Arrived) (m : PacketMemory)
        → IsSentIpv6 s n link → n ≤ 4096 → IsSplit (drop n s) pieces → AreArrived (IsIpv6Fragment s n link id) pieces arrived
        → are_among pieces (arrived_pieces arrived) ≡ true → WasStored m 65535 (arrived_parts arrived) → HasPacket m s }
{}

/// Proves that no packet has been given up since the table was last cleared, if no more packets are sent in fragments than there
/// are slots, and each call comes within the timeout of every packet that arrived before it: that of the settings, or, for
/// `give_up`, its own.
pub fn packets_are_kept_where_there_is_room()
    ensures nothing { (names : List PacketName) (settings : Settings) (start end : TableState) (calls : List Step)
        → IsFresh settings start → length names ≤ length start.slots.slots.now → IsCallRun settings start calls end
        → AreNamed names calls → AreTimely settings.timeout calls → NothingLost calls }
    ensures kept { (context : ℕ) (k : FragmentKey) (calls : List Step) → NothingLost calls → AreKept context k calls }
{}

/// Proves that no fragment is lost: as long as no call since the table was last cleared makes a packet whole or reports that it
/// was given up, a slot has the packet, and its memory has all of the packet's fragments that arrived, and no others.
pub fn memories_have_all_fragments_of_their_packets()
    ensures { (settings : Settings) (context : ℕ) (k : FragmentKey) (start end : TableState) (calls : List Step) → IsKey k
        → IsFresh settings start → IsCallRun settings start calls end → IsPending context k calls
        → HasFragments context k (fragments_in context k calls) end.slots.slots.now end.memories }
{}
