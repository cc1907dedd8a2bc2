//! The definitions computed in the simplest way. It is slow: it tries every length.
ghost use Rattle.std.specs.Prelude.{◌≡◌, ◌↔◌, ◌≤◌, take, drop, length, map, IsTrue, IfOk, IfSome, IfNone};
ghost use Rattle.ip_spec.specs.Header.{IsHeader};
ghost use Rattle.ip_spec.specs.Chain.{IsLongestChain, IsNext, IsEnd, leads_to, bytes_of};
ghost use Rattle.check_reference.specs.PlainHeader.{plain_header_of};

use std::alloc::{AllocError, Global};

/// A number and the bytes of a header of that number.
#[derive(Clone, Copy, Debug, PartialEq, Eq)]
pub struct PlainHeader<'a> {
    pub number: u8,
    pub bytes: &'a [u8],
}

/// Returns whether the bytes are exactly one header of the number (RFC 8200, section 4; RFC 4302, section 2).
pub fn is_header(number: u8, bytes: &[u8]) -> bool
    ensures { IsTrue result ↔ IsHeader number bytes.now }
{
    match number {
        0 | 43 | 60 => bytes.len() >= 8 && bytes.len() == 8 * (usize::from(bytes[1]) + 1),
        44 => bytes.len() == 8,
        51 => {
            bytes.len() >= 2 && bytes[1] >= 1 && bytes.len() == 4 * (usize::from(bytes[1]) + 2)
        }
        _ => false,
    }
}

/// Returns the length of the header of the number at the start of the bytes; `first` says that no header precedes it.
pub fn next_len(first: bool, number: u8, bytes: &[u8]) -> Option<usize>
    ensures within { IfSome result (λ len. len ≤ length bytes.now) }
    ensures next { IfSome result (λ len.
        IsNext first number bytes.now (record { number = number; bytes = take len bytes.now })) }
    ensures none { IfNone result (IsEnd first number bytes.now) }
{
    if number == 0 && !first {
        return None;
    }
    for len in 0..=bytes.len() {
        if is_header(number, &bytes[..len]) {
            return Some(len);
        }
    }
    None
}

/// A chain at the start of some bytes, the number to which it leads and the bytes after it.
#[derive(Debug, Drop)]
pub struct PlainChain<'a> {
    pub headers: Vec<PlainHeader<'a>>,
    pub number: u8,
    pub rest: &'a [u8],
}

/// Returns the longest chain from the number at the start of the bytes. Returns an error only if memory runs out.
pub fn plain_longest_chain<'a>(
    alloc: Global,
    start: u8,
    bytes: &'a [u8],
) -> Result<PlainChain<'a>, AllocError>
    ensures longest { IfOk result (λ chain.
        IsLongestChain start bytes.now (map plain_header_of chain.headers.items)) }
    ensures number { IfOk result (λ chain.
        chain.number ≡ leads_to start (map plain_header_of chain.headers.items)) }
    ensures rest { IfOk result (λ chain. chain.rest.now
        ≡ drop (length (bytes_of (map plain_header_of chain.headers.items))) bytes.now) }
{
    let mut headers = Vec::new(alloc);
    let mut number = start;
    let mut rest = bytes;
    'headers: while let Some(len) = next_len(headers.is_empty(), number, rest) {
        let (header, after) = rest.split_at(len);
        headers.push(PlainHeader {
            number,
            bytes: header,
        })?;
        number = header[0];
        rest = after;
    }
    Ok(PlainChain {
        headers,
        number,
        rest,
    })
}
