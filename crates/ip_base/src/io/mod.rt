//! Readers of exact numbers of bytes.
mod exact_read;
mod limited_reader;
mod over_read;

pub use exact_read::ExactRead;
pub use limited_reader::LimitedReader;
pub use over_read::OverRead;
