//! Digests of results: the parts of a result, folded into one number.
pub mod chains;
pub mod owned;
pub mod packets;
pub mod structs;
