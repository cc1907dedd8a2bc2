//! Errors of chains, and the errors of lower crates that they contain.
pub mod ipv6_exts;

pub use ip_base::err::{ChainSource, Layer, LenError};
pub use ip_ext_headers::err::ip_auth;
