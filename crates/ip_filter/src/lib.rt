//! Packet filters over the dissection of a packet (`ip_dissect`): its base header, extension headers, fragment,
//! error, sizes and ports. Nothing is copied or allocated.
//!
//! | To | Call |
//! |---|---|
//! | test one condition | `Term::holds` |
//! | parse the text of a filter | `Filter::parse`; `ipcap(1)` has the terms |
//! | test a packet | `Filter::matches`, which walks over it once unless it is plain |
//! | test a frame and its packet | `Filter::matches_frame` with a `Frame`, for terms such as `vlan` and `less` |
//! | test a frame that isn't IP, such as an ARP request | `Filter::matches_other_frame`, or `Filter::matches_other` if no more is known of it: it meets no term, so `not fault` matches it |
//! | test many packets of one buffer | `Batch::filter` of `ip_batches` |
//!
//! # Terms
//!
//! - A packet meets a term exactly if the definition `holds` says so of its dissected parts. Bytes without a base
//!   header meet only terms of faults and of truncated headers, so they meet the negation of any other term.
//! - Ports are found after any extension headers: the first four bytes of the payload, if the headers end there
//!   (`is_at_payload`). Where the payload is too short for a port, its terms don't hold. A later fragment has none.
//! - If the length field is 0, all bytes that follow are the packet's (`lacks_length`, `packet_len`). Otherwise what
//!   follows the packet changes no result (the law `bytes_after_the_packet_change_nothing`).
//! - Some terms ask the frame (`holds_of_frame`). Of a packet alone, the length on the wire is that of the packet, and the
//!   other terms are false.
//!
//! # Texts
//!
//! - Numbers are decimal without leading zeros, or hexadecimal after `0x`.
//! - tcpdump's primitives are operands: `tcp port 443` is `( tcp and port 443 )`, and `port 80 or 443` is `port 80 or
//!   port 443`.
//! - A text is parsed exactly if its words are a filter of the grammar. It is one in only one way, and the filter
//!   matches exactly those packets of which its formula holds.
//! - Any other text has its error at the first word with which no filter goes on, or at the end of the text if words
//!   are missing: some filter begins with the words before it, none with these and that one. The error also says what
//!   is expected there (`IsExpected`): `` expected `and`, `or` or the end at byte 9 ``.
//!
//! # Programs
//!
//! A `Filter` is a program: an array of tests, each with the indices of the tests that follow if the packet meets it
//! and if not. A packet passes if it is led to index 64. `Filter::matches` runs only the tests that the packet is led
//! to.
//!
//! - A filter is plain data, and any contents are one: no test leads back, a packet that is led to an index without a
//!   test doesn't pass, tests after the first 64 don't count, and a filter without tests matches nothing.
//! - A `Test` is plain numbers, the same in Rust and C. Versions, kinds of headers and fragments, truncation, missing
//!   bytes and faults are flags: a test of them is a mask, of which one flag has to be set (`flag`, `meets`). Several
//!   terms are one test where one mask says the same.
//! - Where the order doesn't matter, tests that the base header decides come first, then tests of flags.
//! - Tests of flags, of the number after the headers and of payload bytes ask metadata: a `Metadata` is what they ask of a
//!   packet.
#![tactic(auto)]

mod access;
mod access_bits;
mod access_words;
mod arguments;
mod builder;
mod by_base;
mod compile;
mod early;
mod facts;
mod filter;
mod flags;
mod frame;
mod framed;
mod header_condition;
mod holds;
mod icmp_types;
mod join;
mod keyword;
mod laws;
mod layers;
mod meets;
mod metadata;
mod network;
mod networks;
mod numbers;
mod operators;
mod option_types;
mod other_frames;
mod parse;
mod parse_error;
mod parse_term;
mod plain;
mod primitive;
mod qualifiers;
mod quantity;
mod run;
mod tcp_flags;
mod term;
mod test_of;
mod transport;
mod words;

pub use filter::{Filter, Test};
pub use frame::Frame;
pub use laws::{bytes_after_the_packet_change_nothing, errors_lie_in_their_layers};
pub use metadata::Metadata;
pub use network::Network;
pub use parse_error::{Expected, ParseError};
pub use term::{
    AccessedBytes, AccessedHeader, ComparedBits, Comparison, FaultKind, Ports, Quantity, TcpFlags,
    Term,
};
