//! Makes packets of IPv4 (RFC 791, section 3.2) and IPv6 (RFC 8200, section 4.5) whole from their fragments, in
//! memory of the caller's. Nothing is allocated, and there is no clock: the caller passes the time at which a packet
//! arrived.
//!
//! | To | Call |
//! |---|---|
//! | begin, whatever the memory contains | `Defragmenter::clear` |
//! | add a packet, and count what becomes of it | `Defragmenter::add`; without counts `defragment` |
//! | write a packet after `Outcome::Whole(index)` | `memories[index].write(out)`, before another packet is stored there |
//! | give up packets whose time is over, though no fragment comes | `SlotTable::give_up`, with `DefragmenterCounts::count_loss` |
//! | know which fragment a packet is | `fragment_of` |
//! | have other memory, or another order of slots | `SlotTable::place`, `PacketMemory::add`, `write_packet` |
//!
//! # Fragments
//!
//! - Atomic fragments (offset 0, no more fragments) are packets by themselves and join no other (RFC 6946):
//!   `NotFragment`.
//! - A first fragment's headers must be whole and without an error (RFC 7112), and have at most 4,096 bytes. Its
//!   transport header isn't looked at.
//! - After an overlap, two ends or contradicting ECN code points, further fragments of the packet are refused until
//!   it is given up (RFC 5722; RFC 3168, section 5.3).
//! - A fragment that is refused by itself takes no slot: it isn't aligned, is too long or has too long headers.
//! - A fragment that comes after its packet was made whole begins a new one.
//!
//! # Slots
//!
//! The caller has an array of slots, the links of a `Table` for them (`ip_lists`), and one `PacketMemory` for each
//! slot. There should be about as many buckets as slots. `clear` makes any memory a table of free slots
//! (`HoldsPackets`), and each call keeps it valid. In any other memory no call fails, and nothing beyond the slices
//! is touched.
//!
//! A slot has the context and the key of a packet and the time of its first fragment. The key (`FragmentKey`) has
//! both addresses and the identification, in IPv4 the protocol too. A slot is found by the context and key of its
//! packet, and by no other ones (`slots_are_found_by_their_keys`, `slots_in_use_are_found`), and its memory has only
//! fragments of that packet (`memories_have_fragments_of_their_packets`).
//!
//! - A packet that isn't whole at the timeout is given up when its next fragment comes, or when another packet needs
//!   the slot; later fragments don't extend the time.
//! - Only if there is no free slot, the oldest packet is given up, whose slot was taken first:
//!   `LossReason::Displaced`, or `TimedOut` if its time is over (`packets_are_given_up_for_a_reason`).
//! - A fragment costs the length of one chain of the table, that of the hash of context and key: SipHash-1-3.
//!
//! # Memory and what is written
//!
//! A `PacketMemory` has 4,096 bytes for the headers of the first fragment and 65,536 for the payload. Slots, memories
//! and counts are numbers alone, with C's layout, and free or empty if all are 0 (`zeros_are_a_new_memory`). A memory
//! is read and written only as far as its packet needs.
//!
//! After `Whole`, `write` writes the packet, given room: the payload after the first fragment's headers up to the
//! fragment header, which name what that header named and state the whole length. In IPv4 the more fragments flag is
//! cleared and the checksum computed. If a fragment had the ECN code point CE, the packet has it
//! (`whole_packets_have_their_code_point`). Otherwise it is the packet that was sent
//! (`whole_packet_is_the_one_sent`); `ip_defragmenter_laws` proves this over whole runs.
//!
//! `whole_packet` in `check_uses/src/fragments.rt` adds a packet and writes the whole one, without a proof file.
//! `packet_that_was_sent` in `check_uses/src/fragments.rt` writes the packet that was sent, by that law.
#![tactic(auto)]

mod codes;
mod counts;
mod defragmenter;
mod err;
mod fields;
mod finder;
mod fragment;
mod key;
mod memory;
mod outcome;
mod pending;
mod points;
mod sent_laws;
mod settings;
mod slot;
mod slot_laws;
mod slots;
mod store;
mod whole;
mod zero_laws;

pub use counts::DefragmenterCounts;
pub use defragmenter::{Defragmenter, add_fragment, defragment};
pub use err::{FragmentError, StoreError, WholeError};
pub use fields::AddedFields;
pub use fragment::{IpFragment, fragment_of};
pub use key::FragmentKey;
pub use memory::PacketMemory;
pub use outcome::{Added, DropReason, Outcome};
pub use pending::{Loss, LossReason, Pending};
pub use sent_laws::{whole_packet_is_the_one_sent, whole_packets_have_their_code_point};
pub use settings::{DEFAULT_TIMEOUT, Settings};
pub use slot::Slot;
pub use slot_laws::{
    memories_have_fragments_of_their_packets, packets_are_given_up_for_a_reason,
    packets_expire_by_their_age, slots_are_found_by_their_keys, slots_in_use_are_found,
};
pub use slots::{Placement, SlotTable};
pub use whole::write_packet;
pub use zero_laws::zeros_are_a_new_memory;
