//! The first words of accesses, as a filter's text writes them: `tcp[13]` or `ip[2:2]`.
ghost use Rattle.std.specs.Prelude.{◌≡◌};
ghost use Rattle.ip_filter.specs.AccessWords.{header_from, field_offset, offset_of, size_of, within_brackets, in_brackets, access_of};

use crate::numbers::{index_of, parse_long, parse_upper_layer};
use crate::{AccessedBytes, AccessedHeader};

/// Returns the bytes that the word names: a protocol, and in brackets an offset and a colon and a size or nothing.
pub(crate) fn access_of(word: &[u8]) -> Option<AccessedBytes>
    ensures { result ≡ access_of word.now }
{
    let bracket = index_of(word, b'[');
    match header_from(&word[..bracket]) {
        Some(header) => in_brackets(header, &word[bracket..]),
        None => None,
    }
}

/// Returns the header that the word names.
fn header_from(word: &[u8]) -> Option<AccessedHeader>
    ensures { result ≡ header_from word.now }
{
    if word == b"ip".as_slice() {
        return Some(AccessedHeader::Base(4));
    }
    if word == b"ip6".as_slice() {
        return Some(AccessedHeader::Base(6));
    }
    match parse_upper_layer(word) {
        Some(number) => Some(AccessedHeader::Transport(number)),
        None => None,
    }
}

/// Returns the bytes that the part of a word from its bracket on names.
fn in_brackets(header: AccessedHeader, word: &[u8]) -> Option<AccessedBytes>
    ensures { result ≡ in_brackets header word.now }
{
    match word {
        [] => None,
        [_, rest @ ..] => {
            let end = index_of(rest, b']');
            if &rest[end..] == b"]".as_slice() {
                within_brackets(header, &rest[..end])
            } else {
                None
            }
        }
    }
}

/// Returns the bytes that the part of a word within its brackets names.
fn within_brackets(header: AccessedHeader, word: &[u8]) -> Option<AccessedBytes>
    ensures { result ≡ within_brackets header word.now }
{
    let colon = index_of(word, b':');
    let offset = parse_offset(&word[..colon])?;
    let size = parse_size(&word[colon..])?;
    Some(AccessedBytes {
        header,
        offset,
        size,
    })
}

/// Returns the offset that the word writes, or that of the field that it names.
fn parse_offset(word: &[u8]) -> Option<u32>
    ensures { result ≡ offset_of word.now }
{
    if let Some(offset) = field_offset(word) {
        return Some(offset);
    }
    parse_long(word)
}

/// Returns the offset of the field that the word names.
fn field_offset(word: &[u8]) -> Option<u32>
    ensures { result ≡ field_offset word.now }
{
    if word == b"icmptype".as_slice() || word == b"icmp6type".as_slice() {
        return Some(0);
    }
    if word == b"icmpcode".as_slice() || word == b"icmp6code".as_slice() {
        return Some(1);
    }
    if word == b"tcpflags".as_slice() {
        return Some(13);
    }
    None
}

/// Returns the size that follows a colon, or 1 without one.
fn parse_size(word: &[u8]) -> Option<u8>
    ensures { result ≡ size_of word.now }
{
    match word {
        [] => Some(1),
        [_, size @ ..] => {
            if size == b"1".as_slice() {
                return Some(1);
            }
            if size == b"2".as_slice() {
                return Some(2);
            }
            if size == b"4".as_slice() {
                return Some(4);
            }
            None
        }
    }
}
