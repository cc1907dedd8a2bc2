//! Errors of IPv6 chains.
mod header_slice_error;

pub use header_slice_error::HeaderSliceError;
pub use ip_base::err::ipv6_exts::HeaderError;
