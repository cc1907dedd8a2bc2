//! Single extension headers: an authentication header (RFC 4302, section 2), an IPv6 fragment header, and raw
//! headers, which are the IPv6 headers in the uniform format (RFC 6564): hop-by-hop options, routing and destination
//! options (RFC 8200, section 4). A header slice borrows the caller's bytes, which are exactly one header; a struct
//! has its own. A clause sees a struct as the record of its fields, and a slice as its bytes.
//!
//! | To | Call |
//! |---|---|
//! | parse a header and copy nothing | `from_slice` of the slice |
//! | keep a header, or change its fields | `from_slice` of the struct, or `to_header` of the slice; in a larger value `copy_to`, which moves nothing |
//! | write one header | `write`, which reserves `header_len()` bytes |
//! | write several headers, all or none | one `reserve` of the sum of their `header_len()`, then `write_reserved` of each, which can't fail |
//! | read from a stream | `read`; with a limit `read_limited`; into a header that exists `read_over`, which leaves it unchanged after an error |
//!
//! A raw header has 2 KB and an authentication header 1 KB, moved with each call that returns one. Only `write`
//! allocates, and room never shrinks; `clone` never fails and doesn't allocate. What is written is the only header
//! with these fields and reserved bits zero (the law `one_encoding` of `ip_spec`). A read from a steady reader is
//! refused exactly if the bytes left don't start with a header; the clause `refused` says which request was refused,
//! and what had been consumed.
//!
//! `write_both` in `check_uses/src/headers.rt` reserves room for two headers at once. It needs no proof file.
#![tactic(auto)]

mod appending;
mod auth_parts;
mod encodable;
pub mod err;
mod fragment_bits;
mod ip_auth_header;
mod ip_auth_header_slice;
mod ipv6_fragment_header;
mod ipv6_fragment_header_slice;
mod ipv6_raw_ext_header;
mod ipv6_raw_ext_header_slice;
mod reserved_bits;

pub use ip_auth_header::{IPv6AuthenticationHeader, IpAuthHeader, IpAuthenticationHeader};
pub use ip_auth_header_slice::{IpAuthHeaderSlice, IpAuthenticationHeaderSlice};
pub use ip_base::io;
pub use ipv6_fragment_header::Ipv6FragmentHeader;
pub use ipv6_fragment_header_slice::Ipv6FragmentHeaderSlice;
pub use ipv6_raw_ext_header::{Ipv6RawExtHeader, Ipv6RawExtensionHeader};
pub use ipv6_raw_ext_header_slice::{Ipv6RawExtHeaderSlice, Ipv6RawExtensionHeaderSlice};
pub use reserved_bits::clear_reserved_bits;
