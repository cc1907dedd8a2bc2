//! Writes an IPv4 or IPv6 packet with other extension headers or another payload into the caller's buffer.
//!
//! | To | Call |
//! |---|---|
//! | leave out headers: the one with an index, or all with a number or several | `remove_header`, with a `Which` |
//! | insert a header before the one with an index | `with_header`; `recommended_index` returns the index in the recommended order |
//! | write another payload after the same headers | `with_payload` |
//! | set the reserved bits of fragment and authentication headers to zero | `clear_reserved_bits` |
//! | put the headers in the order that RFC 8200, section 4.1, recommends | `in_order` |
//! | ask whether these two would change headers | `has_reserved_bits`, `is_in_order` |
//! | leave out headers of several numbers, clear bits and put in order at once, where there is something to change | `rewrite` |
//!
//! What is written dissects as the old packet with this change. Nothing else changes but the base header's length,
//! IPv4's checksum, which is computed anew (RFC 1071), next headers, and a jumbogram's length in its option (RFC
//! 2675). Padding isn't written. After an error nothing is written.
//!
//! A jumbogram has the length field 0 and, in its first header, one jumbo payload option that states how many bytes
//! follow the base header: over 65,535. It has no fragment header.
//!
//! `keeps_checksums` is false if the payload was replaced, or a routing header with segments left was removed or
//! inserted: transport checksums cover the final destination (RFC 8200, section 8.1). The home address option (RFC
//! 6275, section 6.3), which replaces the source address in checksums, isn't looked for.
//!
//! The first error that applies is returned, in this order: `Headers`, `Missing`, `LaterFragment`, `NotAHeader`,
//! `NoHeader`, `FragmentHeader`, `Misplaced`, `Fragmented`, `Authenticated`, `HeaderFollows`, `NotAJumbogram`,
//! `NoLength`, `TooLong`, `NoRoom`.
//!
//! `without_first` in `check_uses/src/rewriting.rt` is a caller.
#![tactic(auto)]

mod base;
mod both;
mod buffer;
mod checksum_laws;
mod clearing;
mod err;
mod first_header;
mod header;
mod insertion;
mod insertion_laws;
mod jumbogram;
mod kept;
mod order;
mod order_laws;
mod payload;
mod place;
mod plan;
mod removal;
mod request;
mod rewriting;
mod selection;
mod which;
mod write;
mod writer;

pub use checksum_laws::written_checksums_are_right;
pub use clearing::{clear_reserved_bits, has_reserved_bits};
pub use err::RewriteError;
pub use insertion::with_header;
pub use insertion_laws::what_was_inserted_can_be_left_out;
pub use order::{in_order, is_in_order};
pub use order_laws::headers_are_put_in_order;
pub use payload::with_payload;
pub use place::recommended_index;
pub use removal::{Rewritten, remove_header};
pub use request::Request;
pub use rewriting::rewrite;
pub use which::{Authentication, HeaderSet, Which};
