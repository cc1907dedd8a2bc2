//! One pass over the extension headers of an IPv6 packet.
ghost use Rattle.std.specs.Prelude.{◌≡◌, ◌≤◌, ◌+◌, ◌<◌, ◌^◌, ◌++◌, ◌∷◌, ◌==◌, ◌||◌, not, if◌then◌else◌, Some, None, [], length, drop, List, ℕ};
ghost use Rattle.ip_spec.specs.Chain.{ExtHeader};
ghost use Rattle.ip_base.specs.Prefix.{IsPrefix};
ghost use Rattle.ip_spec.specs.Header.{IsHeader};
ghost use Rattle.ip_dissect.specs.Fragment.{fragment_in, is_kept};
ghost use Rattle.ip_dissect.specs.Found.{found_in, HasPassed};
ghost use Rattle.ip_dissect.specs.Later.{chain_to_later};

use crate::{Fragment, HeaderVisitor};
use ip_base::{IpNumber, ip_number};
use ip_ext_headers::Ipv6FragmentHeaderSlice;
use ip_ext_slices::{header_len_at, is_extension};

/// What a pass over a chain finds: its fragment headers, and the number of headers.
#[derive(Clone, Copy, Debug)]
pub(crate) struct Found {
    /// The first fragment header that fragments the payload; if none does, the first one.
    pub(crate) fragment: Option<Fragment>,
    /// Whether a fragment header has a non-zero offset.
    pub(crate) later: bool,
    /// How many headers there are.
    pub(crate) count: usize,
}

/// The end of a pass: the number that follows the headers, the bytes after them, what it found, and
/// whether an error follows.
#[derive(Clone, Copy, Debug)]
pub(crate) struct Passed<'a> {
    pub(crate) number: IpNumber,
    pub(crate) rest: &'a [u8],
    pub(crate) found: Found,
    /// Whether it stopped at an extension header's number without such a header.
    pub(crate) has_error: bool,
}

/// Returns the bytes after the first `len`.
#[inline(always)]
pub(crate) fn after(bytes: &[u8], len: usize) -> &[u8]
    requires { len ≤ length bytes.now }
    ensures { result.now ≡ drop len bytes.now }
{
    &bytes[len..]
}

/// Walks the longest chain from `start` in which nothing follows a later fragment's header. The bytes start `offset`
/// bytes after the start of the packet.
#[inline(always)]
pub(crate) fn pass<'a, V: HeaderVisitor>(
    start: IpNumber,
    bytes: &'a [u8],
    offset: usize,
    visitor: &mut V,
) -> Passed<'a>
    requires { offset + length bytes.now < 2 ^ 64 }
    ensures passed { HasPassed start.0 bytes.now result }
    ensures visited { V.visited visitor.old offset (chain_to_later start.0 bytes.now) visitor.new }
{
    let mut number = start;
    let mut rest = bytes;
    let mut found = Found::none();
    'headers: while let Some(len) = header_len_at(rest.len() == bytes.len(), number, rest) {
        let index = found.count;
        let at = offset + (bytes.len() - rest.len());
        let header = &rest[..len];
        found = found.with(fragment_at(number, rest));
        visitor.visit(number, header, index, at);
        number = IpNumber(header[0]);
        rest = after(rest, len);
        if found.later {
            return Passed {
                number,
                rest,
                found,
                has_error: false,
            };
        }
    }
    Passed {
        number,
        rest,
        found,
        has_error: is_extension(number),
    }
}

impl Found {
    /// Returns the value for a chain without headers.
    #[inline(always)]
    fn none() -> Found
        ensures { result ≡ found_in [] }
    {
        Found {
            fragment: None,
            later: false,
            count: 0,
        }
    }

    /// Returns the value for the chain with one more header, which is of this fragment if it is a fragment header.
    #[inline(always)]
    fn with(self, fragment: Option<Fragment>) -> Found
        requires { self.count + 1 < 2 ^ 64 }
        ensures { (c : List ExtHeader) (h : ExtHeader) → self ≡ found_in c
            → fragment ≡ fragment_in h → result ≡ found_in (c ++ h ∷ []) }
    {
        let count = self.count + 1;
        match fragment {
            Some(fragment) => self.with_fragment(fragment, count),
            None => Found { count, ..self },
        }
    }

    /// Returns the value for the chain with one more fragment header, which then has `count` headers.
    #[inline(always)]
    fn with_fragment(self, fragment: Fragment, count: usize) -> Found
        ensures fragment { result.fragment
            ≡ (if is_kept self.fragment fragment then self.fragment else Some fragment) }
        ensures later { result.later ≡ (self.later || not (fragment.offset == 0)) }
        ensures count { result.count ≡ count }
    {
        let is_kept = match self.fragment {
            Some(before) => !before.is_atomic() | fragment.is_atomic(),
            None => false,
        };
        Found {
            fragment: if is_kept {
                self.fragment
            } else {
                Some(fragment)
            },
            later: self.later | (fragment.offset != 0),
            count,
        }
    }
}

/// Returns the fragment of the header of this number at the start of `bytes`, and `None` unless it is a fragment header.
#[inline(always)]
fn fragment_at(number: IpNumber, bytes: &[u8]) -> Option<Fragment>
    ensures { (b : List ℕ) → IsHeader number.0 b → IsPrefix b bytes.now
        → result ≡ fragment_in (record { number = number.0; bytes = b }) }
{
    if number != ip_number::IPV6_FRAG {
        return None;
    }
    match Ipv6FragmentHeaderSlice::from_slice(bytes) {
        Ok(header) => Some(Fragment::new(
            header.identification(),
            header.more_fragments(),
            header.fragment_offset().value(),
        )),
        Err(_) => None,
    }
}
