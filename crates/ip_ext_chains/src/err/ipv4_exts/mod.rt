//! Errors of IPv4 extension headers. Their parses return the errors of authentication headers.
mod header_write_error;

pub use header_write_error::HeaderWriteError;
pub use ip_base::err::ipv4_exts::ExtsWalkError;
