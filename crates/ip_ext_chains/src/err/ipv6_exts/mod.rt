//! Errors of IPv6 chains.
mod header_limited_read_error;
mod header_read_error;
mod header_write_error;

pub use header_limited_read_error::HeaderLimitedReadError;
pub use header_read_error::HeaderReadError;
pub use header_write_error::HeaderWriteError;
pub use ip_base::err::ipv6_exts::{ExtsWalkError, HeaderError};
pub use ip_ext_slices::err::ipv6_exts::HeaderSliceError;
