//! Callers of the other crates, proved from their public contracts alone: examples, and one for each clause about a
//! single result of a call. And laws that two crates share.
#![tactic(auto)]

pub mod agreement_laws;
pub mod base;
pub mod batches;
pub mod captures;
pub mod chain_outcomes;
pub mod chains;
pub mod contents;
pub mod dissections;
pub mod filters;
pub mod fragments;
pub mod frames;
pub mod from_etherparse;
pub mod header_outcomes;
pub mod headers;
pub mod ipv4;
pub mod layers;
pub mod lists;
pub mod packet_outcomes;
pub mod packets;
pub mod places;
pub mod read_outcomes;
pub mod readers;
pub mod reassembly;
pub mod rewriting;
pub mod runs;
pub mod span_outcomes;
pub mod spans;
pub mod statistics;
pub mod tool;
