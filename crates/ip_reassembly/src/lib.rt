//! Payloads of IP packets, reassembled from their fragments (RFC 791, section 3.2; RFC 8200, section 4.5). Each
//! fragment's bytes are copied once, into a buffer of the caller's, and each unit of 8 bytes has a mark, 2 KB in all.
//! Nothing is allocated. `ip_defragmenter` reassembles whole packets, many at a time.
//!
//! | To | Call |
//! |---|---|
//! | reassemble one payload | `Reassembly::new(buffer)`, `add` for each fragment, and `payload` after `Progress::Whole` |
//! | let a conflict abandon the packet, as the standard wants | `Reassembly::abandoning` instead of `new`; otherwise call `abandon` after an error for which `is_conflict` is true |
//! | keep what has arrived in memory of another language, apart from the buffer | `ReassemblyState`, numbers alone in C's layout, and the same buffer in each call |
//! | reassemble another payload | `clear`; of a state with unknown contents `reset` |
//!
//! The errors are tested in the order of `AddError`, but `Abandoned` first. After `Unaligned` and `TooLong` the
//! fragments before are kept. `Overlap` and `TwoEnds` are conflicts: the packet is to be abandoned (RFC 5722).
//!
//! Whatever the numbers of a `ReassemblyState` are, each call returns; if all are 0, nothing has arrived
//! (`zeros_are_a_new_state`). Only a stored fragment's bytes are written to the buffer.
//!
//! A caller knows `WasGiven S limit abandons []` of a new `Reassembly`, and from there on the clause `given` of each
//! `add`. `last_fragment_first` in `check_uses/src/reassembly.rt` reassembles two fragments, of which the last
//! arrives first. Its proof shows that the two split the payload, and follows from the clauses `given` and `pieces`.
#![tactic(auto)]

mod err;
mod marks;
mod progress;
mod reassembly;
mod run;
mod state;
mod zero_laws;

pub use err::AddError;
pub use progress::Progress;
pub use reassembly::Reassembly;
pub use state::ReassemblyState;
pub use zero_laws::zeros_are_a_new_state;
