//! Errors in authentication headers.
mod header_error;

pub use header_error::HeaderError;
