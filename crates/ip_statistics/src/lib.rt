//! Statistics of packets of IPv4 and IPv6, by their dissection (`ip_dissect`): by version, end, fragment and length,
//! by the numbers of their extension headers and payloads, and by their faults. Statistics that were counted apart
//! can be merged. They are plain data, some 8 KB with public fields; nothing is allocated.
//!
//! | To | Call |
//! |---|---|
//! | count a packet | `Statistics::count_packet`, one walk over its headers |
//! | count it and do something else with it in the same walk | `Statistics::count_and_visit` |
//! | add what was counted apart | `Statistics::merge` |
//! | also count frames without a packet, and truncated ones | `CaptureStatistics`, the struct that C has; its `merge` refuses another version or size |
//! | count many packets of one buffer | `Batch::count` of `ip_batches` |
//!
//! - A packet counts what the definition `counts_of` says of its dissected parts, and nothing else. A packet without
//!   a base header has no chain. A packet with a truncated or faulty header has no payload number and no payload
//!   bytes. The payload of a later fragment continues that of an earlier one, so its number is counted in
//!   `later_fragment_numbers` and not in `payload_numbers`.
//! - Sums are associative and commutative although a count stops at 2^64 - 1: however a list of packets is split,
//!   counted and merged, in whatever order, the result is the statistics of the list
//!   (`merges_are_the_statistics_of_all`).
//! - `chain_bytes` has a count for each multiple of 4 bytes below 256, and then one for each power of two.
//!   `truncated_headers` and `faults` are indexed by the codes of `ip_codes`: the layer, and 16 times the kind plus
//!   the layer.
//!
//! `counted_apart` in `check_uses/src/statistics.rt` counts two packets apart and merges them. Its proof is one line:
//! the clause `packets` of `merge` at the two lists of one packet.
#![tactic(auto)]

mod add;
mod capture;
mod counts;
mod faults;
mod headers;
mod lengths;
mod merge;
mod merge_laws;
mod statistics;

pub use capture::CaptureStatistics;
pub use merge_laws::merges_are_the_statistics_of_all;
pub use statistics::Statistics;
