//! Dissects a packet of IPv4 (RFC 791) or IPv6 (RFC 8200) at the start of any bytes: its base header, the length that
//! it states, its extension headers as far as they are whole, which fragment it is, its payload, and why the headers
//! end where they do. It walks the extension headers once, copies nothing and allocates nothing. Use it to filter,
//! count or show packets as they were captured: truncated, as fragments, with padding, or with a length field of 0.
//!
//! | To | Call |
//! |---|---|
//! | get all parts, and the error | `dissect` |
//! | get lengths and numbers alone, of a packet without an error | `summarize_packet` |
//! | get any packet, of which `end` makes the error only if it is asked for | `Packet::walk` |
//! | do something with each extension header and then with the packet | `Packet::walk_through` |
//! | treat plain packets in their own way, or return a result | `Packet::visit` |
//!
//! `dissect` stops at a fragment header whose offset is not 0, where parsers continue: the bytes after it belong to
//! the payload, and their sender could write anything there. Of all other packets, `IpSlice::from_slice` accepts
//! those whose dissection ends at the payload, with no byte missing and, for IPv4, with a stated length; both have
//! the same parts then: `parsed_packets_end_at_their_payload` and `parsed_packets_have_these_parts` in
//! `check_uses/src/agreement_laws.rt` are the laws.
//!
//! A header needs as many bytes as its length field states or, if that isn't here, the least that it can have. If the
//! stated length of the packet leaves fewer, it doesn't fit the packet: `End::Fault`, with the length field as the
//! source. Otherwise, if fewer are here, `End::Truncated`: the rest may exist elsewhere.
//!
//! # Visitors
//!
//! All walks pass each extension header once to a `HeaderVisitor`, which may assume that the bytes are a header of
//! this number. `()` does nothing. A pair of references to two visitors of a walk, `(&mut first, &mut second)`, is
//! one too: both share the walk.
//!
//! | To | Implement | Which says |
//! |---|---|---|
//! | count or store headers | `HeaderVisitor` | `visited`: what the visitor is after a list of headers |
//! | do something with the packet too, as `ip_statistics` does | `WalkVisitor` | `walked`: what it is after the packet |
//! | return a result, or treat plain packets in their own way | `PacketVisitor` | `plain`, `slow`: what it is afterwards, and what it knows |
//!
//! `Packet::visit` passes a plain packet, without extension headers, fragmentation or error, to `visit_plain`,
//! without a loop. Any other goes out of line to `visit_slow`, as a `PacketStart` with its base header parsed;
//! `PacketStart::walk` returns the packet.
//!
//! A `Packet` keeps two facts by its type: its base header is that of its bytes (`IsBaseOf`), and its summary is
//! `summary_of` their parts. `upper_layer` and `plain_payload` in `check_uses/src/dissections.rt` are callers without
//! proof files.
#![tactic(auto)]

mod base;
mod dissect_laws;
mod dissection;
mod end;
mod ends;
mod extensions;
mod fields;
mod fragment;
mod ipv4_chain;
mod packet;
mod plain;
mod start;
mod summary;
mod visit;
mod visitor;
mod walk;
mod walk_visitor;
mod walks;

pub use dissect_laws::{one_chain_to_a_later_fragment, truncated_bytes_keep_whole_headers};
pub use dissection::{BaseHeader, Dissection};
pub use end::End;
pub use fragment::{Fragment, FragmentKind};
pub use packet::Packet;
pub use start::PacketStart;
pub use summary::Summary;
pub use visitor::{HeaderVisitor, PacketVisitor, Visited};
pub use walk_visitor::WalkVisitor;
pub use walks::{dissect, summarize_packet};
