//! Laws of `ip_rewrite`. One is for IPv6 packets that are fragmented (RFC 8200, section 4.5): headers before the fragment
//! header can be left out or inserted, or their reserved bits cleared, in the packet or in each fragment. Both give the
//! same fragments of the rewritten packet, which by `ip_defragmenter_laws` make it whole.
//!
//! | Clauses of `fragments_are_rewritten_as_their_packet` | What they say |
//! |---|---|
//! | `bytes`, `inserted`, `cleared` | the rewritten fragment has the bytes of the rewritten packet's fragment |
//! | `sent`, `inserted_sent`, `cleared_sent` | the rewritten packet can be fragmented, and what is fragmented is as before |
//! | `fragment`, `inserted_fragment`, `cleared_fragment` | the rewritten fragment is one of the rewritten packet, with its piece |
//!
//! The other is for packets that are rewritten twice, of both versions: the first rewriting leaves no trace, so changes made
//! one after another are the changes made at once.
//!
//! | Clauses of `first_rewriting_leaves_no_trace` | What they say |
//! |---|---|
//! | `again` | the packet that is rewritten twice is the one that is rewritten once, the second way |
//! | `stated` | a packet that states its length in its length field still does after a rewriting that is accepted |
//! | `linked` | in such a packet it doesn't matter to which numbers the new headers led before |
//! | `without`, `inserted`, `cleared`, `ordered`, `payload` | so its own headers can be changed, or another payload follow them |
#![tactic(auto)]

mod again_laws;
mod fragment_laws;

pub use again_laws::first_rewriting_leaves_no_trace;
pub use fragment_laws::fragments_are_rewritten_as_their_packet;
