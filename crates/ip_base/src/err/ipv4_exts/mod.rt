//! Errors in the order of IPv4 extension headers.
mod exts_walk_error;

pub use exts_walk_error::ExtsWalkError;
