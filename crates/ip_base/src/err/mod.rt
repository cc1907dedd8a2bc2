//! Errors of base headers, lengths, extension headers, packets and readers.
mod chain_source;
pub mod io;
pub mod ip;
pub mod ip_auth;
pub mod ip_exts;
pub mod ipv4;
pub mod ipv4_exts;
pub mod ipv6;
pub mod ipv6_exts;
mod layer;
mod len_error;
mod packet_source;
mod source;
mod value_too_big_error;

pub use chain_source::ChainSource;
pub use layer::Layer;
pub use len_error::LenError;
pub use packet_source::PacketSource;
pub use source::Source;
pub use value_too_big_error::ValueTooBigError;
