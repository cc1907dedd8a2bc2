//! Buffers for the answers to lines.
ghost use Rattle.std.specs.Prelude.{◌≡◌, [], replicate, string_bytes};

use crate::line_fields::BYTES_LEN;
use std::alloc::Allocator;

/// Buffers that are reused for each line.
#[derive(Drop)]
pub struct Scratch<A: Allocator> {
    /// The answer to a line.
    pub text: String<A>,
    /// The bytes that a line's digits denote, possibly followed by those of earlier lines.
    pub bytes: [u8; BYTES_LEN],
    /// The allocator.
    pub alloc: A,
}

impl<A: Allocator + Copy> Scratch<A> {
    /// Returns empty buffers.
    pub fn new(alloc: A) -> Self
        ensures text { string_bytes result.text ≡ [] }
        ensures bytes { result.bytes ≡ replicate BYTES_LEN 0 }
    {
        Scratch {
            text: String::new(alloc),
            bytes: [0; BYTES_LEN],
            alloc,
        }
    }
}
