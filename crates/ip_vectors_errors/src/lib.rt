//! Test vectors for errors: their texts, causes and accessors, which of them are equal and hash alike, and the texts
//! of protocol numbers.
#![tactic(auto)]

#[cfg(test)]
mod accessors;
#[cfg(test)]
mod alike;
#[cfg(test)]
mod checks;
#[cfg(test)]
mod samples;
#[cfg(test)]
mod sources;
#[cfg(test)]
mod texts;
