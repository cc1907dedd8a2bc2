//! Errors of the extension headers of a packet of either IP version.
pub use ip_ext_chains::err::ip_exts::{ExtsWalkError, HeaderError, HeadersSliceError};
