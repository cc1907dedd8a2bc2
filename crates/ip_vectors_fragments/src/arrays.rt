//! Arrays of links.
use crate::text::Words;
use anyhow::Result;
use ip_lists::Links;
use std::alloc::{AllocError, Global};

/// Two arrays of links.
#[derive(Drop)]
pub(crate) struct Arrays {
    next: Vec<u32>,
    previous: Vec<u32>,
}

/// Returns the numbers up to a word `/`.
fn numbers(alloc: Global, words: &mut Words<'_>) -> Result<Vec<u32>> {
    let mut numbers = Vec::new(alloc);
    for _ in 0..u16::MAX {
        match words.next() {
            None | Some("/") => break,
            Some(word) => numbers.push(word.parse::<u32>()?)?,
        }
    }
    Ok(numbers)
}

impl Arrays {
    /// Returns arrays of the same length, each filled with a number.
    pub(crate) fn filled(
        alloc: Global,
        len: usize,
        next: u32,
        previous: u32,
    ) -> Result<Arrays, AllocError> {
        Ok(Arrays {
            next: vec![in alloc; next; len]?,
            previous: vec![in alloc; previous; len]?,
        })
    }

    /// Returns the arrays that words have: `NEXT .. / PREVIOUS ..`.
    pub(crate) fn parse(alloc: Global, words: &mut Words<'_>) -> Result<Arrays> {
        Ok(Arrays {
            next: numbers(alloc, words)?,
            previous: numbers(alloc, words)?,
        })
    }

    /// Returns the arrays as links.
    pub(crate) fn links(&mut self) -> Links<'_> {
        Links {
            next: self.next.as_mut_slice(),
            previous: self.previous.as_mut_slice(),
        }
    }
}
