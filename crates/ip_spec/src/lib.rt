//! Definitions of headers, chains of headers and the longest chain, over plain lists of bytes, and their laws. Every
//! contract rests on them, and `check_reference` computes them in the plainest way.
//!
//! A law is a function without arguments whose body is empty: after a call, its clauses are known. `is_read_back` in
//! `check_uses/src/headers.rt` calls `one_decoding`: the bytes decode to the header and to the result of
//! `from_slice`, which are equal by this law, so it needs no proof file.
//!
//! | To show | Call |
//! |---|---|
//! | what bytes are parsed as | `one_longest_chain`, `longest_chain_ends` |
//! | the same under a demand, such as at most k headers or six places | `one_longest_chain_under_a_demand`, `demands` |
//! | that truncated bytes keep the headers that are whole | `shorter_bytes_keep_whole_headers` |
//! | which headers fit six places | `chain_fits_by_its_numbers`, `fitting_chain_stops_where_occupied` |
//! | what a walk over a value leads to, and what is written | `one_walk_answer`, `one_spelling`, `spelled_bytes_are_parsed` |
//! | that runs are the fewest, and lose no header | `one_list_of_runs`, `fewest_runs`, `runs_keep_each_header` |
//! | that equal bytes are equal headers, and back | `one_decoding`, `one_encoding` |
//!
//! Every form of chain is the longest under its demand. A test of chains is a demand if the empty chain passes it,
//! and a chain that passes it still does after headers at its end are dropped. The laws of the crates above rest on
//! `one_longest_chain_under_a_demand` and `demand_keeps_its_longest_chain`.
//!
//! Proof files can use the lemmas in `Rattle.ip_spec.proofs`: `ChainLemmas.{some_longest, longest_at_end,
//! whole_longest}`, and `ParsedLemmas.HasParsed`, the invariant of a loop that parses a chain; under a demand,
//! `UnderLemmas` and `DemandLemmas`.
//!
//! In clauses, letters have these types:
//!
//! | Letters | Type |
//! |---|---|
//! | `f`, `j`, `k`, `m`, `n` | `ℕ` |
//! | `b`, `r`, `s` | `List ℕ` |
//! | `c`, `d`, `p` | `List ExtHeader` |
//! | `ps`, `qs` | `List (List ExtHeader)` |
//! | `q` | `List ExtHeader → Bool` |
//! | `v`, `w` | `PlacedFields`, or the fields of a header |
#![tactic(auto)]

mod chain_laws;
mod demand_laws;
mod header_laws;
mod runs_laws;
mod walk_laws;

pub use chain_laws::{longest_chain_ends, one_longest_chain};
pub use demand_laws::{
    chain_fits_by_its_numbers, demand_keeps_its_longest_chain, demands, fitting_chain_ends,
    fitting_chain_stops_where_occupied, longest_chain_under_a_demand_ends,
    longest_chains_under_demands, next_header_fits, occupied_numbers,
    one_longest_chain_under_a_demand, one_longest_fitting_chain, shorter_bytes_keep_whole_headers,
};
pub use header_laws::{
    cleared_header_encodes, cleared_header_says_the_same, encoding_len, one_decoding, one_encoding,
};
pub use runs_laws::{
    fewest_runs, one_list_of_runs, runs_are_longest_fitting_chains, runs_count,
    runs_keep_each_header,
};
pub use walk_laws::{
    linked_headers_are_walked, one_spelling, one_walk_answer, spelled_bytes_are_parsed,
    spelling_clears_what_was_parsed, walk_leads_where_the_value_is_parsed,
};
