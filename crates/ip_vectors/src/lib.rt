//! Test vectors for numbers, single headers, IPv4 headers and lines of the tool, for long chains, and for calls
//! without free memory.
#![tactic(auto)]

#[cfg(test)]
mod base;
#[cfg(test)]
mod base_headers;
#[cfg(test)]
mod checks;
#[cfg(test)]
mod digits;
#[cfg(test)]
mod full_heap;
#[cfg(test)]
mod header_slices;
#[cfg(test)]
mod ipv4;
#[cfg(test)]
mod lines;
#[cfg(test)]
mod long_chains;
#[cfg(test)]
mod memory;
#[cfg(test)]
mod single_headers;
#[cfg(test)]
mod tool;
