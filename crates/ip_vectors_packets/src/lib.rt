//! Test vectors for packets: base headers, length fields that are wrong, and packets and chains as plain numbers.
#![tactic(auto)]

#[cfg(test)]
mod accesses;
#[cfg(test)]
mod batches;
#[cfg(test)]
mod checks;
#[cfg(test)]
mod dissect;
#[cfg(test)]
mod filter_texts;
#[cfg(test)]
mod filters;
#[cfg(test)]
mod fragment_headers;
#[cfg(test)]
mod frames;
#[cfg(test)]
mod lengths_that_lie;
#[cfg(test)]
mod long_formulas;
#[cfg(test)]
mod options;
#[cfg(test)]
mod packets;
#[cfg(test)]
mod plain_packets;
#[cfg(test)]
mod plain_summary;
#[cfg(test)]
mod ports;
#[cfg(test)]
mod routing;
#[cfg(test)]
mod samples;
#[cfg(test)]
mod spans;
#[cfg(test)]
mod stated_lengths;
#[cfg(test)]
mod statistics;
#[cfg(test)]
mod tcp_flags;
#[cfg(test)]
mod transport_headers;
#[cfg(test)]
mod truncated_and_faulty;
