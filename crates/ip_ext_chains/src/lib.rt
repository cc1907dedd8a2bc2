//! Owned IPv6 extension headers in six places (`Ipv6Extensions`; RFC 8200, section 4.1): parsed, read, linked, walked
//! and written, and the runs of a chain that has more headers. The extension headers of IPv4 (RFC 4302, section 2),
//! borrowed and owned. The borrowed chains of `ip_ext_slices` and the headers of `ip_ext_headers` are exported here
//! too. Only `write` allocates.
//!
//! | To | Call |
//! |---|---|
//! | get the headers that fit six places, and what follows them | `from_slice_lax`; an occupied number is no error, and of truncated bytes it returns the whole headers |
//! | refuse bytes whose headers end with an error | `from_slice` |
//! | know which headers fit, without a struct | `fitting_headers`, borrowed; `run_len`, by the numbers of any array whose elements implement `HasNumber` |
//! | read from a stream | `read`; with a limit `read_limited` |
//! | know where the headers lead, and whether each is reached | `next_header` |
//! | link the headers in the order of the places | `set_next_headers` |
//! | write the headers | `write`, which asks for memory once, before it appends anything |
//! | split a chain with more headers into structs | `Ipv6ExtensionsRuns::new`, or `from_headers` if it is parsed already; `skip_run` passes over a run without its struct |
//! | write a parsed chain as its structs would be written | copy its bytes, then `clear_chain`, or `clear_runs`, which counts the runs too |
//!
//! An extension number whose place is free always has an error after the longest chain that fits (the law
//! `free_extension_number_left_has_fault`). Written one after another, each from `next_number` before it, runs are
//! the chain with reserved bits zero. From the last run on, and not before, `end` returns what follows the chain.
//!
//! From `IsFittingAnswer`, `IsFittingHeaders` and `IsIpv4Answer` a caller has four equations by name (`value`,
//! `number`, `rest`, `fault`). Some modules of `ip_spec` and `ip_base` are exported again under
//! `Rattle.ip_ext_chains.specs`; a crate lists those crates only if it names them.
//!
//! # A read after an error
//!
//! `read` and `read_limited` consume the bytes of the longest chain that fits, and no more. If the number names no
//! header, nothing is read. Their clause `refused` says which request was refused, and what was consumed by then.
//! `read_limited` starts a layer for each header, and after an error the reader is there:
//!
//! - After `Io`, `Len` and `Content(IpAuth(..))`, `layer()` and `layer_offset()` are those of the header that could
//!   not be read, and `read_len()` is how many bytes of it were read: 0, 2 or 12. After `Io` the clause doesn't say
//!   how many further bytes the reader itself consumed.
//! - After `Content(HopByHopNotAtStart)` they are those of the last header that was read, which names hop-by-hop
//!   options, and `read_len()` is its length. No layer starts after it, and no byte after it is read.
//!
//! # Callers
//!
//! | Caller | What it does |
//! |---|---|
//! | `fragment_of` in `check_uses/src/places.rt` | returns the fragment header after an IPv6 header, without a proof file: the first question of a defragmenter |
//! | `put_in_order`, `copy_fitting` and `copy_cleared` in `check_uses/src/places.rt` | links and writes a struct's headers, and proves that they are parsed again; appends the headers that fit; copies a borrowed chain |
//! | `append_cleared` in `check_uses/src/places.rt` | appends the bytes that runs write, without structs |
//! | `check_uses/src/runs.rt` | uses `Ipv6ExtensionsRuns`. For `collect` and `count` the lemma `runs_yield` of `Rattle.ip_ext_chains.proofs.RunLemmas` says which list they yield |
//! | `write_runs` in `check_reference/src/runs.rt` | writes runs, and proves that the whole chain is written, with `RewritingLemmas`, whose `IsRewriting` is the invariant of the loop, and `RefusedLemmas` |
//! | `push_rewriteall6` in `ipexts_tool/src/rewriteall6.rt` | counts and clears the runs of a parsed chain, without a proof file |
//! | `check_uses/src/ipv4.rt` | parses, links and writes IPv4 extension headers |
#![tactic(auto)]

mod borrowed;
mod chain_laws;
pub mod err;
mod header_ref;
mod header_source;
mod ipv4_exts;
mod ipv4_exts_read;
mod ipv4_exts_slice;
mod ipv6_exts;
mod ipv6_exts_read;
mod ipv6_exts_runs;
mod ipv6_exts_write;
mod ipv6_routing_exts;
mod links;
mod numbered;
mod places;
mod run;
mod walk;

pub use borrowed::{clear_chain, fitting_headers};
pub use chain_laws::free_extension_number_left_has_fault;
pub use ip_base::{IpNumber, LenSource, ip_number};
pub use ip_ext_headers::{
    IpAuthHeader, IpAuthHeaderSlice, Ipv6FragmentHeader, Ipv6FragmentHeaderSlice, Ipv6RawExtHeader,
    Ipv6RawExtHeaderSlice,
};
pub use ip_ext_slices::{
    Ipv6ExtensionSlice, Ipv6ExtensionSliceIter, Ipv6ExtensionsCursor, Ipv6ExtensionsSlice,
    extension_number_left_has_fault, fault_at,
};
pub use ipv4_exts::Ipv4Extensions;
pub use ipv4_exts_slice::Ipv4ExtensionsSlice;
pub use ipv6_exts::Ipv6Extensions;
pub use ipv6_exts_runs::Ipv6ExtensionsRuns;
pub use ipv6_routing_exts::Ipv6RoutingExtensions;
pub use numbered::{HasNumber, run_len};
