//! Errors of IPv4 packets and of their base headers.
mod slice_error;

pub use ip_base::err::ipv4::{HeaderError, HeaderSliceError};
pub use slice_error::SliceError;
