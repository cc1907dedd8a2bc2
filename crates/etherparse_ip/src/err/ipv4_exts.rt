//! Errors of IPv4 extension headers. Their parses return the errors of authentication headers.
pub use ip_ext_chains::err::ipv4_exts::{ExtsWalkError, HeaderWriteError};
