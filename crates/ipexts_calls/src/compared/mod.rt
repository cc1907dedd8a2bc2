//! Calls whose complete results `tests/diff/` and `tests/fuzz/` compare, and which aren't measured.
mod dissections;
pub mod every_byte;
mod fields;
mod filters;
mod read_fields;
