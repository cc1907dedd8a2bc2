//! Chains of extension headers (RFC 8200, section 4) and packets, parsed into plain numbers: each header's offset and
//! length, what follows, and the error, in arrays and structs that the caller owns. C calls this layer through
//! `ipexts_c`; in Rattle, `Ipv6ExtensionsSlice`, `Ipv6ExtensionsCursor` and `IpSlice` offer more. Nothing is
//! allocated, and any value that C or WebAssembly can pass is valid.
//!
//! | To get | Call |
//! |---|---|
//! | a chain's headers, what follows it, and its error | `parse_chain`, `parse_ipv4_chain` |
//! | the parts of any packet, also truncated, faulty or a fragment | `dissect_packet`; with its visitor `PartsAndSpans`, `Statistics::count_and_visit` also counts the packet |
//! | the headers of a packet that must be whole | `parse_packet`; also of a truncated IPv6 packet `parse_packet_lax` |
//! | its payload alone, which is all that a filter needs | `find_payload`, `find_payload_lax` |
//! | one header after another | `ChainCursor`; the options of a header `OptionCursor` |
//! | the fields of a header | `fragment_fields`, `auth_fields`, `routing_fields` and `routing_address` |
//! | headers linked and written | `link_headers`, `write_headers` |
//! | a filter from its text | `parse_filter`, whose calls are those of `ip_filter` |
//! | a text with a zero after it | `fault_text`, `expected_text`, `display_text` |
//!
//! - An array gets the first headers, as many as fit, and is unchanged after them; the count is of all. If a packet
//!   is refused, the array is unchanged.
//! - Packets that must be whole are accepted and refused, with the same errors, as by `IpSlice::from_slice`, and by
//!   the calls in `_lax` as by `Ipv6Slice::from_slice_lax`.
//! - Any two numbers are a cursor. A step passes over the next header there, and stays if there is none.
//! - No clause says which words `fault_text` writes, or that an error has any: tests compare them.
//!
//! `has_room` in `check_uses/src/spans.rt` is a caller without a proof file.
#![tactic(auto)]

mod chain_cursor;
mod chain_parts;
mod dissection_parts;
mod fault_fields;
mod fields;
mod filter_parse;
mod header_fields;
mod header_span;
mod links;
mod option_cursor;
mod packet_parts;
mod payload_span;
mod routing_header;
mod texts;
mod writes;

pub use chain_cursor::ChainCursor;
pub use chain_parts::{ChainParts, parse_chain, parse_ipv4_chain};
pub use dissection_parts::{DissectionParts, PartsAndSpans, dissect_packet};
pub use fault_fields::FaultFields;
pub use fields::Fields;
pub use filter_parse::{FilterError, parse_filter};
pub use header_fields::{AuthFields, FragmentFields, auth_fields, fragment_fields};
pub use header_span::HeaderSpan;
pub use links::link_headers;
pub use option_cursor::{OptionCursor, OptionSpan};
pub use packet_parts::{PacketParts, parse_packet, parse_packet_lax};
pub use payload_span::{PayloadSpan, find_payload, find_payload_lax};
pub use routing_header::{RoutingFields, routing_address, routing_fields};
pub use texts::{display_text, expected_text, fault_text};
pub use writes::write_headers;
