//! Errors of chains, and those of the crates below that they contain.
pub mod ip_exts;
pub mod ipv4_exts;
pub mod ipv6_exts;

pub use ip_base::err::{ChainSource, Layer, LenError};
pub use ip_ext_headers::err::ip_auth;
