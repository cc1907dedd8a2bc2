//! Errors of authentication headers.
mod header_limited_read_error;
mod header_read_error;
mod header_slice_error;
mod icv_len_error;

pub use header_limited_read_error::HeaderLimitedReadError;
pub use header_read_error::HeaderReadError;
pub use header_slice_error::HeaderSliceError;
pub use icv_len_error::IcvLenError;
pub use ip_base::err::ip_auth::HeaderError;
