//! Errors in the extension headers of a packet of either IP version, and in their order.
mod exts_walk_error;
mod header_error;

pub use exts_walk_error::ExtsWalkError;
pub use header_error::HeaderError;
