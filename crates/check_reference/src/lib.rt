//! The definitions computed in the simplest way: headers, the longest chain, the headers that fit six places, the
//! error, and the tool's answers. Test vectors are compared with it as well as with the library; only tests and
//! examples use it. It is slow: it finds a chain by trying every length at every place.
//!
//! `plain_answers` keeps all of the input and all fields of a line in memory. It parses a number by trying every
//! numeral, a chain by `plain_longest_chain` and its error by `plain_fault`, a base header byte by byte. It shares
//! the definitions with `ipexts_tool`, and no code; for `dissect` it uses only the types of `ip_dissect`. For two
//! forms it calls the library: for `rewrite6` the lax parse of `Ipv6Extensions` and `write`; for `rewriteall6`
//! `Ipv6ExtensionsRuns`, `write` and the lax parse of the borrowed chain.
//!
//! `plain_longest_chain` and `plain_answers` fail only for lack of memory, which no clause says. `first_header_len`
//! in `check_uses/src/base.rt` is a caller without a proof file.
#![tactic(auto)]

mod answers;
mod chain;
mod dissect;
mod fault;
mod fits;
mod later;
mod packet;
mod plain_base;
mod plain_dissection;
mod plain_end;
mod plain_fragment;
mod plain_ipv4;
mod plain_packet;
mod runs;

pub use answers::plain_answers;
pub use chain::{PlainChain, PlainHeader, is_header, next_len, plain_longest_chain};
pub use fault::plain_fault;
pub use fits::{fitting_len, numbers_fit, whole_within};
