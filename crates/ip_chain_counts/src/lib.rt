//! Counts of the chains of packets of IPv4 and IPv6, in memory of the caller's: how many packets have each list of
//! extension headers. A chain is the packet's IP version, the numbers of its extension headers, the number after them, and
//! whether they end at a fault or are truncated, by its dissection (`ip_dissect`). The table is that of `ip_key_counts`.
//!
//! | To | Call |
//! |---|---|
//! | begin, and read the counts | `KeyCounts::clear`; `KeyCounts::listed`, and the field `other` |
//! | count the chain of a packet | `count_chain` |
//! | count it and the packet (`ip_statistics`) in one walk | `count_packet_and_chain`; many packets: `Batch::count_with_chains` of `ip_batches` |
//! | add what was counted apart | `KeyCounts::merge` |
//!
//! - The key of a chain is a list of bytes (`chain_of`): IP version, number after the headers, 0, 1 for a fault or 2 for
//!   truncated, and then the number of each header. A key has at most 67 bytes, so a chain of more than 64 headers is
//!   counted as other.
//! - A packet without a base header has no chain, and isn't counted.
//! - For a packet in tunnels, the caller passes the path of the packets that carry it, which is put before the key. If no
//!   path begins with the bytes 4 or 6, no two of the keys are confused.
//! - Counts of many packets are those that the laws of `ip_key_counts` are about: `keys_of_all` has the keys of a list of
//!   packets.
#![tactic(auto)]

mod count;
mod key_bytes;

pub use count::{count_chain, count_packet_and_chain};
