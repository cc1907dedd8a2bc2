//! Errors of packets, and those of the crates below under the original's paths.
pub mod ip;
pub mod ip_exts;
pub mod ipv4;
pub mod ipv4_exts;
pub mod ipv6;
pub mod ipv6_exts;

pub use ip_base::err::{ChainSource, Layer, LenError, PacketSource, Source, ValueTooBigError, io};
pub use ip_ext_headers::err::ip_auth;
