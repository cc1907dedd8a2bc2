//! The parts shared by every IP layer: protocol numbers, names of layers and length sources, base headers of IPv4
//! (RFC 791) and IPv6 (RFC 8200), a packet's payload, checksums, errors of lengths, of extension headers and of
//! packets, and readers that return exactly as many bytes as requested. Nothing allocates. The crates above export it
//! again; programs import it from here.
//!
//! A clause sees an `IpNumber` as its field `.0`, an `IpFragOffset` as its number, and a base header as its bytes.
//! The files `readers.rt` and `base.rt` of `check_uses` have callers.
//!
//! # Errors
//!
//! The `source` of an error refers to the value that its variant holds. That value is the cause: `Cause` for single
//! headers, `ChainCause` for chains, `PacketCause` for packets. So `option_map cause_in result ≡ Some (cause_of S)`
//! says which variant the error is and what it holds.
//!
//! # Readers
//!
//! | To read from | Use |
//! |---|---|
//! | bytes in memory | `&[u8]`, which loses from its front what was read |
//! | any `std::io::Read` | `io::OverRead::new(stream)` |
//! | no more than a length field allows | `io::LimitedReader::new(reader, ..)` |
//!
//! A contract describes a reader (`io::ExactRead`) by four ghost members:
//!
//! | Member | What it says |
//! |---|---|
//! | `bytes_left` | the bytes not yet read, if the reader knows them |
//! | `is_steady` | whether it refuses only where too few bytes are left; such a reader knows its bytes (`steady_tells`) |
//! | `has_failed` | whether a read has failed |
//! | `has_given` | the errors that its last read may have returned |
//!
//! - An `Io` error is the reader's own, by the clause `own` of each read. `OverRead` says nothing of it, since the
//!   contract of `std::io::Read` doesn't speak of errors; tests compare the kinds.
//! - `OverRead` passes every request on, also after one has failed; no clause says so. `failed` stays true from the
//!   first failure on, by `kept` and `refuses`.
//! - A `LimitedReader` consumes nothing for a request that exceeds its limit, and its error says how many bytes the
//!   layer needs. After an `Io` error the limit is unchanged, and no clause says what the inner reader consumed.
#![tactic(auto)]

mod checksum;
mod checksum_laws;
pub mod err;
pub mod io;
mod ip_frag_offset;
pub mod ip_number;
mod ip_number_impl;
mod ip_payload_slice;
mod ipv4_header;
mod ipv4_header_slice;
mod ipv6_header;
mod ipv6_header_slice;
mod len_source;

pub use checksum::{internet_checksum, put_word};
pub use checksum_laws::headers_are_summed;
pub use ip_frag_offset::IpFragOffset;
pub use ip_number_impl::IpNumber;
pub use ip_payload_slice::IpPayloadSlice;
pub use ipv4_header::Ipv4Header;
pub use ipv4_header_slice::Ipv4HeaderSlice;
pub use ipv6_header::Ipv6Header;
pub use ipv6_header_slice::Ipv6HeaderSlice;
pub use len_source::LenSource;
