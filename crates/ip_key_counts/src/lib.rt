//! Tables of counts by key, in memory of the caller's. A key is a short list of bytes, and each key that was counted has
//! an entry with its count, in the order in which the keys were first counted. Keys for which there is no entry left are
//! counted together, as `other`.
//!
//! | To | Call |
//! |---|---|
//! | begin | `KeyCounts::new`, with entries from `CountedKey::unused`; whatever the memory contains, `KeyCounts::clear` |
//! | count a key | `KeyCounts::count` |
//! | add what was counted apart | `KeyCounts::merge` |
//! | read the counts | `KeyCounts::listed`, and the field `other` |
//!
//! - Counts stop at 2^64 - 1.
//! - However a list of keys is split, counted apart and merged in order, the counts and their order are those of the whole
//!   list, as long as no part but the first counted a key as `other` (`merges_count_all_keys`). Whether it did or not, no
//!   key is lost: the sum of all counts is the number of keys.
//! - A key is found by a hash with a seed that only the caller knows, so the time that a key takes doesn't depend on what
//!   keys a sender chooses.
#![tactic(auto)]

mod counted_key;
mod key_counts;
mod links;
mod merge_laws;

pub use counted_key::{CountedKey, MAX_KEY_LEN};
pub use key_counts::KeyCounts;
pub use merge_laws::merges_count_all_keys;
