//! The codes of errors, layers, length sources, fragments and ends of packets: small numbers by which `ip_statistics`
//! counts, and which `ip_spans` and C have in plain fields. `specs/Codes.antt` lists all of them, and
//! `specs/CodeNames.antt` their names.
//!
//! | Code | Kind of error | Layer | Length source | Kind of fragment | End |
//! |---|---|---|---|---|---|
//! | 0 | none | none | none | none | at the payload |
//! | 1 | too few bytes | `IpHeader` | the slice | atomic | at a later fragment's payload |
//! | 2 | hop-by-hop options that aren't first | `Ipv4Header` | total length | first | truncated header |
//! | 3 | an authentication header whose length field is 0 | `Ipv4Packet` | payload length | middle | faulty header |
//! | 4 | a version that is neither 4 nor 6 | `IpAuthHeader` | | last | |
//! | 5 | an IPv4 header length below 5 | `Ipv6Header` | | | |
//!
//! The other layers follow in the order of `Layer`, up to 12 for `Icmpv4`. The module `kind` has the kinds of errors
//! as constants. A name is a constant text for C, with a zero after it; a code without a name has the empty name. A word is
//! what filters and programs call a code, in the same form.
#![tactic(auto)]

mod ends;
mod error_layers;
mod errors;
mod layers;
mod names;
mod words;

pub use ends::{end_code_of, kind_code_of};
pub use error_layers::end_layer;
pub use errors::{error_kind_of, kind};
pub use layers::{header_code_of, layer_code_of, len_source_code_of};
pub use names::{kind_name, layer_name, len_source_name, number_name};
pub use words::{kind_word, layer_word, number_word};
