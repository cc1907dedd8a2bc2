//! Test vectors for chains: borrowed, in six places, split into runs, linked, written, and read from streams.
#![tactic(auto)]

#[cfg(test)]
mod borrowed;
#[cfg(test)]
mod chain_readers;
#[cfg(test)]
mod chains;
#[cfg(test)]
mod checks;
#[cfg(test)]
mod debug_texts;
#[cfg(test)]
mod places;
#[cfg(test)]
mod readers;
#[cfg(test)]
mod runs;
#[cfg(test)]
mod writes;
