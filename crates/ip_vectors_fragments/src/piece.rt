//! Fragments of two payloads, whose bytes all differ, and what becomes of them.
use crate::text::Words;
use anyhow::{Context, Result, bail};
use ip_base::IpFragOffset;
use ip_reassembly::{AddError, Progress, Reassembly};

/// A fragment: its offset in units of 8 bytes, its flag, its length, and which of two payloads its bytes are from.
#[derive(Clone, Copy, Debug, PartialEq, Eq)]
pub(crate) struct Piece {
    pub(crate) offset: u16,
    pub(crate) more: bool,
    pub(crate) len: u16,
    pub(crate) other: bool,
}

impl Piece {
    /// Returns a fragment of the first payload.
    pub(crate) fn own(offset: u16, more: bool, len: u16) -> Piece {
        Piece {
            offset,
            more,
            len,
            other: false,
        }
    }

    /// Returns the fragment that words describe: `OFFSET more|last LEN [other]`.
    pub(crate) fn parse(words: &mut Words<'_>) -> Result<Piece> {
        let offset = words.number()?;
        let more = match words.word()? {
            "more" => true,
            "last" => false,
            flag => bail!("'{flag}' is neither 'more' nor 'last'"),
        };
        let len = words.number()?;
        let other = match words.next() {
            None => false,
            Some("other") => true,
            Some(payload) => bail!("'{payload}' is no payload"),
        };
        Ok(Piece {
            offset,
            more,
            len,
            other,
        })
    }

    /// Returns the offset of its first byte.
    pub(crate) fn start(self) -> usize {
        8 * usize::from(self.offset)
    }

    /// Returns the offset after its last byte.
    pub(crate) fn end(self) -> usize {
        8 * usize::from(self.offset) + usize::from(self.len)
    }

    /// Returns whether it has the byte at an offset.
    pub(crate) fn has(self, offset: usize) -> bool {
        self.start() <= offset && offset < self.end()
    }
}

/// Returns the byte of one of two payloads at an offset.
pub(crate) fn byte_at(offset: usize, other: bool) -> u8 {
    let byte = (offset % 251) as u8;
    if other { 255 - byte } else { byte }
}

/// Returns why a payload refuses a fragment, in a word.
pub(crate) fn refusal(error: AddError) -> &'static str {
    match error {
        AddError::Unaligned => "unaligned",
        AddError::TooLong => "too-long",
        AddError::Overlap => "overlap",
        AddError::TwoEnds => "two-ends",
        AddError::Abandoned => "abandoned",
    }
}

/// Adds a fragment of at most 1,280 bytes. Returns what becomes of it, in a word.
pub(crate) fn add(reassembly: &mut Reassembly<'_>, piece: Piece) -> Result<&'static str> {
    let mut bytes = [0u8; 1280];
    let len = usize::from(piece.len);
    for (i, byte) in bytes.iter_mut().take(len).enumerate() {
        *byte = byte_at(piece.start().saturating_add(i), piece.other);
    }
    let bytes = bytes.get(..len).context("the fragment is too long")?;
    let offset = IpFragOffset::try_new(piece.offset)?;
    Ok(match reassembly.add(offset, piece.more, bytes) {
        Ok(Progress::MoreWanted) => "more-wanted",
        Ok(Progress::Whole) => "whole",
        Err(error) => refusal(error),
    })
}

/// Returns whether the payload has this length and the bytes of the first payload.
pub(crate) fn has_payload(reassembly: &Reassembly<'_>, len: usize) -> bool {
    match reassembly.payload() {
        Some(payload) => payload.len() == len && is_own(payload),
        None => false,
    }
}

/// Returns whether bytes are those of the first payload.
pub(crate) fn is_own(payload: &[u8]) -> bool {
    payload
        .iter()
        .enumerate()
        .all(|(i, byte)| *byte == byte_at(i, false))
}
