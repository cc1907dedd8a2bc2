//! Test vectors for programs of BPF.
#![tactic(auto)]

#[cfg(test)]
mod assembled;
#[cfg(test)]
mod compiled;
#[cfg(test)]
mod programs;
