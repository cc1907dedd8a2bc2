//! Errors of the extension headers of a packet of either IP version.
mod headers_slice_error;

pub use headers_slice_error::HeadersSliceError;
pub use ip_base::err::ip_exts::{ExtsWalkError, HeaderError};
