//! Laws of the defragmenter over whole runs: the fragments of a packet that was sent make that packet whole. The
//! calls of a run are those of `defragment`, `SlotTable::give_up` and `SlotTable::clear`, in any order.
//!
//! A fragment of a packet (`IsIpv4Fragment`, `IsIpv6Fragment`) is what RFC 791, section 3.2, or RFC 8200, section
//! 4.5, makes of it, with the packet's ECN code point. The first one's headers end in it without an error (RFC 7112),
//! and up to its fragment header have at most 4,096 bytes.
//!
//! | To show | Call |
//! |---|---|
//! | that what a sender makes are fragments, and are read as such | `made_fragments_are_fragments`, `fragments_are_read` |
//! | that they make the packet whole | `fragments_make_the_packet_that_was_sent`; in one memory `fragments_in_one_memory_are_the_packet` |
//! | that none is lost | `packets_are_kept_where_there_is_room`, `memories_have_all_fragments_of_their_packets` |
//! | that the table stays valid | `tables_stay_valid` |
//!
//! `clear` forgets all packets, so the laws speak of the calls since the table was last cleared. A packet that is
//! given up is reported, by `defragment` or by `give_up`.
//!
//! In a run, call `defragment_in_run`, `give_up_in_run` and `clear_in_run` instead of `defragment`, `give_up` and
//! `clear`, and `write_whole` instead of `write`: they do the same, and their contracts speak of the packet that was
//! sent.
#![tactic(auto)]

mod calls;
mod fragment_laws;
mod run_laws;

pub use calls::{clear_in_run, defragment_in_run, give_up_in_run, write_whole};
pub use fragment_laws::{
    fragments_are_read, made_fragments_are_fragments, read_fragments_are_complete,
};
pub use run_laws::{
    fragments_in_one_memory_are_the_packet, fragments_make_the_packet_that_was_sent,
    memories_have_all_fragments_of_their_packets, packets_are_kept_where_there_is_room,
    tables_stay_valid,
};
