//! Errors of single headers.
pub mod ip_auth;
pub mod ipv6_exts;

pub use ip_base::err::{Source, io};
