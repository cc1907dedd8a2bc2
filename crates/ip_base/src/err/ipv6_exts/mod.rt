//! Errors in IPv6 extension headers and in their order.
mod exts_walk_error;
mod header_error;

pub use exts_walk_error::ExtsWalkError;
pub use header_error::HeaderError;
