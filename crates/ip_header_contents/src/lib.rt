//! What is in extension headers: the options of hop-by-hop and destination options headers (RFC 8200, section 4.2),
//! and the addresses of routing headers of types 2, 3 and 4 (RFC 6275, section 6.4; RFC 6554, section 3; RFC 8754,
//! section 2). All of it is borrowed from the headers' bytes; nothing is copied or allocated.
//!
//! | To read | Call |
//! |---|---|
//! | the options of a header, one after another | `HeaderOptions::of`, an iterator; after it `malformed` returns the offset of the option that ended it, if one did |
//! | the option at the start of any bytes | `option_at` |
//! | a routing header's type and segments left | `routing_type`, `segments_left` |
//! | all addresses of a routing header, or the one with an index | `RoutingAddresses::of`, an iterator; `get` |
//! | where the addresses are | `address_layout` |
//! | an address of type 3, which lacks its first bytes | `suffix` for the bytes that are there, `expanded` for all 16, given the packet's destination |
//!
//! The calls take any header in the uniform format, an `Ipv6RawExtHeaderSlice`. Its number, which the format doesn't
//! have, says whether it has options or addresses. The number of segments left isn't that of the addresses.
//!
//! The callers in `contents.rt` of `check_uses` are proved from these contracts.
#![tactic(auto)]

mod header_option;
mod header_options;
mod option_laws;
mod routing_addresses;
mod routing_laws;
mod routing_layout;

pub use header_option::{HeaderOption, UnknownOption, option_at};
pub use header_options::HeaderOptions;
pub use option_laws::options_begin_the_bytes;
pub use routing_addresses::{RoutingAddress, RoutingAddresses};
pub use routing_laws::addresses_lie_in_one_way;
pub use routing_layout::{AddressLayout, address_layout, routing_type, segments_left};
