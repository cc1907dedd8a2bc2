//! Test vectors for captures: files with what tshark reads of them.
#![tactic(auto)]

#[cfg(test)]
mod classic;
#[cfg(test)]
mod pcapng;
