//! Checks of the public interface that no contract states: constants, impls and paths; of errors also their texts, and a
//! caller for each source and each accessor.
#![tactic(auto)]

pub mod checks;
pub mod error_checks;
pub mod error_outcomes;
pub mod error_sources;
pub mod packet_checks;
pub mod paths;
