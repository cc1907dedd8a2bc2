//! Counts, filters and dissects many packets in one call. They lie at several places in one buffer, each a
//! `PacketSpan`: an offset and a length in bytes. Spans may overlap, in any order. Nothing is allocated.
//!
//! | To | Call |
//! |---|---|
//! | check that all spans lie within the buffer, before anything is counted or stored | `Batch::try_new` |
//! | count all packets, as `Statistics::count_packet` of `ip_statistics` | `Batch::count` |
//! | count all packets and their chains, as `count_packet_and_chain` of `ip_chain_counts` | `Batch::count_with_chains` |
//! | know which match, as `Filter::matches` of `ip_filter` | `Batch::filter` |
//! | dissect all, as `dissect_packet` of `ip_spans` does, without the positions of extension headers | `Batch::dissect` |
//!
//! An offset and a length whose sum has more than 64 bits don't lie in any buffer. The fields of a `Batch` are
//! public, and its ghost field says that each span lies within the buffer, so it can be made from fields only where
//! that is proved.
//!
//! `counted_at` in `check_uses/src/batches.rt` returns the statistics of the packets at some places. Its proof is the
//! clause `packets` of `count` at the empty list.
#![tactic(auto)]

mod batch;
mod blocks;
mod chains;
mod count;
mod dissect;
mod matches;
mod plain;

pub use batch::{Batch, PacketSpan};
