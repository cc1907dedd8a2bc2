//! Errors of packets of either IP version.
pub use ip_base::err::ip::{HeaderError, HeadersError, HeadersSliceError, SliceError};
