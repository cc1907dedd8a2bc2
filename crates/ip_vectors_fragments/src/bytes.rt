//! Bytes, as files of test vectors write them: names of bytes, hexadecimal digits, and changes of what is before them.
use crate::text::Words;
use anyhow::{Context, Result};
use std::alloc::Global;

/// Bytes with a name.
#[derive(Drop)]
struct Named<'a> {
    name: &'a str,
    bytes: Vec<u8>,
}

/// The named bytes of a file.
#[derive(Drop)]
pub(crate) struct Names<'a> {
    alloc: Global,
    named: Vec<Named<'a>>,
}

/// Writes bytes at an offset, as far as there are bytes.
fn put(out: &mut [u8], offset: usize, bytes: &[u8]) {
    for (place, byte) in out.iter_mut().skip(offset).zip(bytes) {
        *place = *byte;
    }
}

impl<'a> Names<'a> {
    /// Returns no names.
    pub(crate) fn new(alloc: Global) -> Names<'a> {
        Names {
            alloc,
            named: Vec::new(alloc),
        }
    }

    /// Gives bytes a name.
    pub(crate) fn define(&mut self, words: &mut Words<'a>) -> Result<()> {
        let name = words.word()?;
        let bytes = self.bytes(words)?;
        self.named.push(Named { name, bytes })?;
        Ok(())
    }

    /// Appends bytes to those that were named last.
    pub(crate) fn append(&mut self, words: &mut Words<'_>) -> Result<()> {
        let bytes = self.bytes(words)?;
        let last = self.named.last_mut().context("nothing is named yet")?;
        last.bytes.extend_from_slice(&bytes)?;
        Ok(())
    }

    /// Returns the bytes with a name.
    fn with_name(&self, name: &str) -> Option<&[u8]> {
        let named = self.named.iter().find(|named| named.name == name)?;
        Some(named.bytes.as_slice())
    }

    /// Appends to bytes, or changes them, as a word says:
    ///
    /// - `NAME` or `HEX` appends bytes;
    /// - `HEXxN` appends a byte N times;
    /// - `N=HEX` replaces the bytes from offset N on;
    /// - `..N` leaves the first N bytes.
    fn apply(&self, word: &str, bytes: &mut Vec<u8>) -> Result<()> {
        if let Some(named) = self.with_name(word) {
            bytes.extend_from_slice(named)?;
        } else if let Some(len) = word.strip_prefix("..") {
            bytes.truncate(len.parse::<usize>()?);
        } else if let Some((offset, new)) = word.split_once('=') {
            let new = hex::decode(self.alloc, new)?;
            put(bytes.as_mut_slice(), offset.parse::<usize>()?, &new);
        } else if let Some((byte, count)) = word.split_once('x') {
            let byte = u8::from_str_radix(byte, 16)?;
            let len = bytes.len().saturating_add(count.parse::<usize>()?);
            bytes.resize(len, byte)?;
        } else {
            bytes.extend_from_slice(&hex::decode(self.alloc, word)?)?;
        }
        Ok(())
    }

    /// Returns the bytes that the next words say, up to a word `/`.
    pub(crate) fn bytes(&self, words: &mut Words<'_>) -> Result<Vec<u8>> {
        let mut bytes = Vec::new(self.alloc);
        for _ in 0..u16::MAX {
            match words.next() {
                None | Some("/") => break,
                Some(word) => self.apply(word, &mut bytes)?,
            }
        }
        Ok(bytes)
    }
}
