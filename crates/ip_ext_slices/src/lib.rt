//! Extension headers after a base header, borrowed from a packet's bytes. For IPv6: the longest chain at the start of
//! the bytes (RFC 8200, section 4), its headers one by one, the number and the bytes that follow it, and the error
//! that ended it. For IPv4: one authentication header (RFC 4302, section 2), or none. Nothing is copied or allocated.
//!
//! | To | Call |
//! |---|---|
//! | get the whole headers, whatever follows them | `Ipv6ExtensionsSlice::from_slice_lax`: the chain, the number after it, the bytes after it, and the error that ended it, if any |
//! | refuse bytes whose headers end with an error | `from_slice` |
//! | walk through a parsed chain | its iterator |
//! | parse header by header, perhaps not to the end | `Ipv6ExtensionsCursor`; from the last header on, and not before, `end` returns what follows the chain |
//! | take a single step | `header_at`; `header_len_at` for its length alone, in less time; `fault_at` for the error where no header is |
//! | know whether a number is an extension header's | `is_extension` |
//! | parse what may follow an IPv4 header | `authentication_header_at` |
//!
//! An extension number that is left after the longest chain always has an error (the law
//! `extension_number_left_has_fault`). No clause of `next` says what `next_number` of an iterator returns after the
//! last header; a test checks it. For a cursor `GivesHeader` says it.
//!
//! From `IsChainAnswer` a caller has four equations by name (`value`, `number`, `rest`, `fault`), and computes with
//! them without a proof file, as `count_headers` and `first_fragment` in `check_uses/src/chains.rt` do. A `for` or a
//! `while let` over a cursor needs at most the loop's invariant as a proof file. An adapter such as `count` needs one
//! line of proof, with `cursor_yields` of `Rattle.ip_ext_slices.proofs.ParseLemmas`: `count_in_one_pass` in
//! `check_uses/src/chains.rt`.
#![tactic(auto)]

mod authentication;
mod chain_laws;
pub mod err;
mod ipv6_ext_slice;
mod ipv6_ext_slice_iter;
mod ipv6_exts_cursor;
mod ipv6_exts_slice;
mod step;

pub use authentication::authentication_header_at;
pub use chain_laws::extension_number_left_has_fault;
pub use ipv6_ext_slice::Ipv6ExtensionSlice;
pub use ipv6_ext_slice_iter::Ipv6ExtensionSliceIter;
pub use ipv6_exts_cursor::Ipv6ExtensionsCursor;
pub use ipv6_exts_slice::Ipv6ExtensionsSlice;
pub use step::{fault, fault_at, header_at, header_len_at, is_extension};
