//! A parsed IPv6 chain, borrowed.
ghost use Rattle.std.specs.Prelude.{◌≡◌, ◌==◌, ℕ, [], length, take, Option, Some, None, is_none, IfOk, IfErr, if◌then◌else◌};
ghost use Rattle.std.specs.Option.{option_map, option_map_or};
ghost use Rattle.ip_base.specs.Prefix.{IsPrefix};
ghost use Rattle.ip_spec.specs.Parse.{rest_after};
ghost use Rattle.ip_spec.specs.Chain.{bytes_of, leads_to, headers_within, is_empty, has_fragmenting, IsLongestChain};
ghost use Rattle.ip_ext_slices.specs.Longest.{longest_chain};
ghost use Rattle.ip_ext_slices.specs.ChainFault.{chain_fault};
ghost use Rattle.ip_ext_slices.specs.ChainAnswer.{IsChainAnswer};
ghost use Rattle.ip_spec.specs.Numbers.{UDP};

use crate::err::Layer;
use crate::err::ipv6_exts::HeaderSliceError;
use crate::step::{cold_fault, fault, header_at, is_extension};
use crate::{Ipv6ExtensionSlice, Ipv6ExtensionSliceIter};
use ip_base::{IpNumber, ip_number};
use std::alloc::AllocError;

/// A chain of IPv6 extension headers (RFC 8200, section 4), borrowed from the caller's bytes. Its bytes are whole
/// headers, linked from the number of the first. Two are equal if the number of the first header and the bytes are.
#[derive(Debug, Drop)]
pub struct Ipv6ExtensionsSlice<'a> {
    first_header: Option<IpNumber>,
    fragmented: bool,
    slice: &'a [u8],
    pub ghost whole: { bytes_of (option_map_or (λ n. longest_chain n.0 slice.now) first_header [])
        ≡ slice.now },
    pub ghost flag: { fragmented ≡ has_fragmenting
        (option_map_or (λ n. longest_chain n.0 slice.now) first_header []) },
    pub ghost first: { is_none first_header ≡ (length slice.now == 0) },
}

impl<'a> Ipv6ExtensionsSlice<'a> {
    ghost use Rattle.ip_ext_slices.specs.Ipv6ExtensionsSlice.{first_header_number, bytes, headers_in};

    /// Returns the chain from `start` that is all of `slice`, without parsing it: the caller knows its headers, and
    /// whether one of them fragments the payload.
    #[inline(always)]
    pub fn new(start: IpNumber, slice: &'a [u8], fragmented: bool) -> Ipv6ExtensionsSlice<'a>
        requires whole { bytes_of (longest_chain start.0 slice.now) ≡ slice.now }
        requires flag { fragmented ≡ has_fragmenting (longest_chain start.0 slice.now) }
        ensures bytes { bytes result ≡ slice.now }
        ensures headers { headers_in result ≡ longest_chain start.0 slice.now }
        ensures first { first_header_number result ≡ (if length slice.now == 0 then None else Some start) }
    {
        let first_header = if slice.is_empty() { None } else { Some(start) };
        Ipv6ExtensionsSlice {
            first_header,
            fragmented,
            slice,
        }
    }

    /// Returns the longest chain from `start` at the start of `input`: the first `len` bytes.
    #[inline(always)]
    #[tactic(auto, using(crate::proofs::ParseLemmas::longest_front, crate::proofs::ParseLemmas::longest_own))]
    fn first(
        start: IpNumber,
        input: &'a [u8],
        len: usize,
        fragmented: bool,
    ) -> Ipv6ExtensionsSlice<'a>
        requires len { len ≡ length (bytes_of (longest_chain start.0 input.now)) }
        requires flag { fragmented ≡ has_fragmenting (longest_chain start.0 input.now) }
        ensures headers { headers_in result ≡ longest_chain start.0 input.now }
        ensures bytes { bytes result ≡ bytes_of (longest_chain start.0 input.now) }
        ensures first { first_header_number result
            ≡ (if length (bytes result) == 0 then None else Some start) }
    {
        Self::new(start, &input[..len], fragmented)
    }

    /// Parses the longest chain at the start of the bytes, for this start number. Returns the chain, the number to
    /// which it leads, the bytes after it and the error that ended it, if any. Offsets in the error count from the
    /// start of `start_slice`. A chain that leads to a number that is not an extension header's has no error. Of
    /// truncated bytes, as in a capture, it returns the chain of the headers that lie wholly within them.
    #[inline(always)]
    #[tactic(auto, using(crate::proofs::LongestLemmas::longest_chain_shorter))]
    pub fn from_slice_lax(
        start_ip_number: IpNumber,
        start_slice: &'a [u8],
    ) -> (
        Ipv6ExtensionsSlice<'a>,
        IpNumber,
        &'a [u8],
        Option<(HeaderSliceError, Layer)>,
    )
        ensures longest { IsLongestChain start_ip_number.0 start_slice.now (headers_in result.0) }
        ensures answer { IsChainAnswer start_ip_number.0 start_slice.now
            (headers_in result.0) result.1.0 result.2.now result.3 }
        ensures truncated { (j : ℕ) → longest_chain start_ip_number.0 (take j start_slice.now)
            ≡ headers_within j (headers_in result.0) }
        ensures bytes { bytes result.0
            ≡ bytes_of (longest_chain start_ip_number.0 start_slice.now) }
        ensures prefix { IsPrefix (bytes result.0) start_slice.now }
        ensures first { first_header_number result.0
            ≡ (if length (bytes result.0) == 0 then None else Some start_ip_number) }
    {
        let (number, rest, len, fragmented) = Self::scan(start_ip_number, start_slice);
        if is_extension(number) {
            let fault = cold_fault(len == 0, number, rest, len);
            let found = Self::first(start_ip_number, start_slice, len, fragmented);
            return (found, number, rest, Some(fault));
        }
        let found = Self::first(start_ip_number, start_slice, len, fragmented);
        (found, number, rest, None)
    }

    /// Walks the longest chain at the start of the bytes, for this start number. Returns the number to which it
    /// leads, the bytes after it, its length in bytes, and whether it fragments the payload.
    #[inline(always)]
    fn scan(start: IpNumber, bytes: &'a [u8]) -> (IpNumber, &'a [u8], usize, bool)
        ensures number { result.0.0 ≡ leads_to start.0 (longest_chain start.0 bytes.now) }
        ensures rest { result.1.now ≡ rest_after (longest_chain start.0 bytes.now) bytes.now }
        ensures len { result.2 ≡ length (bytes_of (longest_chain start.0 bytes.now)) }
        ensures flag { result.3 ≡ has_fragmenting (longest_chain start.0 bytes.now) }
    {
        let mut number = start;
        let mut rest = bytes;
        let mut fragmented = false;
        'headers: while let Some(header) = header_at(rest.len() == bytes.len(), number, rest) {
            fragmented = fragmented || header.is_fragmenting_payload();
            number = header.next_header();
            rest = rest.split_at(header.slice().len()).1;
        }
        (number, rest, bytes.len() - rest.len(), fragmented)
    }

    /// Parses the headers as `from_slice_lax` does, and returns the error, if there is one, instead of the headers.
    #[inline(always)]
    #[tactic(auto, using(crate::proofs::ParseLemmas::chain_fault_is))]
    pub fn from_slice(
        start_ip_number: IpNumber,
        start_slice: &'a [u8],
    ) -> Result<(Ipv6ExtensionsSlice<'a>, IpNumber, &'a [u8]), HeaderSliceError>
        ensures answer { IfOk result (λ x. IsChainAnswer start_ip_number.0 start_slice.now
            (headers_in x.0) x.1.0 x.2.now None) }
        ensures fault { IfErr result (λ e. option_map (λ f. f.0)
            (chain_fault start_ip_number.0 start_slice.now) ≡ Some e) }
        ensures bytes { IfOk result (λ x. bytes x.0
            ≡ bytes_of (longest_chain start_ip_number.0 start_slice.now)) }
        ensures first { IfOk result (λ x. first_header_number x.0
            ≡ (if length (bytes x.0) == 0 then None else Some start_ip_number)) }
    {
        let (number, rest, len, fragmented) = Self::scan(start_ip_number, start_slice);
        if is_extension(number) {
            return Err(fault(len == 0, number, rest, len).0);
        }
        let found = Self::first(start_ip_number, start_slice, len, fragmented);
        Ok((found, number, rest))
    }

    /// Returns the number of the first header, if there is one.
    pub fn first_header(&self) -> Option<IpNumber>
        ensures number { result ≡ first_header_number self.now }
        ensures none { is_none result ≡ is_empty (headers_in self.now) }
    {
        self.first_header
    }

    /// Returns the bytes of the headers.
    pub fn slice(&self) -> &'a [u8]
        ensures bytes { result.now ≡ bytes self.now }
        ensures joined { result.now ≡ bytes_of (headers_in self.now) }
    {
        self.slice
    }

    /// Returns whether some fragment header of the chain fragments the payload.
    pub fn is_fragmenting_payload(&self) -> bool
        ensures { result ≡ has_fragmenting (headers_in self.now) }
    {
        self.fragmented
    }

    /// Returns whether there is no header.
    pub fn is_empty(&self) -> bool
        ensures { result ≡ is_empty (headers_in self.now) }
    {
        self.slice.is_empty()
    }
}

impl<'a> IntoIterator for Ipv6ExtensionsSlice<'a> {
    type Item = Ipv6ExtensionSlice<'a>;

    type IntoIter = Ipv6ExtensionSliceIter<'a>;

    ghost use Rattle.std.specs.Prelude.{◌*◌, ◌≤◌};
    ghost use Rattle.ip_ext_slices.specs.Ipv6ExtensionsSlice.{headers_in, bytes, first_header_number};
    ghost use Rattle.ip_ext_slices.specs.Ipv6ExtensionSliceIter.{headers_left, number_left, bytes_left};

    ghost into_iter_gives = { λ x it. headers_left it ≡ headers_in x };

    #[tactic(auto, using(crate::proofs::SameLemmas::from_start_number))]
    fn into_iter(self) -> Ipv6ExtensionSliceIter<'a>
        ensures headers { headers_left result ≡ headers_in self.entry }
        ensures joined { bytes_of (headers_left result) ≡ bytes self.entry }
        ensures bound { 8 * length (headers_in self.entry) ≤ length (bytes self.entry) }
        ensures number { number_left result ≡ option_map_or (λ n. n.0) (first_header_number self.entry) UDP }
        ensures bytes { bytes_left result ≡ bytes self.entry }
    {
        Ipv6ExtensionSliceIter {
            next_header: self.first_header.unwrap_or(ip_number::UDP),
            rest: self.slice,
        }
    }
}

impl<'a> Clone for Ipv6ExtensionsSlice<'a> {
    ghost use Rattle.std.specs.Prelude.{⊤};
    ghost use Rattle.ip_ext_slices.specs.Ipv6ExtensionsSlice.{first_header_number, bytes};

    ghost is_clone = { λ x copy. (first_header_number copy ≡ first_header_number x) × (bytes copy ≡ bytes x) };

    ghost is_infallible = { λ _. ⊤ };

    fn clone(&self) -> Result<Ipv6ExtensionsSlice<'a>, AllocError> {
        Ok(Ipv6ExtensionsSlice {
            first_header: self.first_header,
            fragmented: self.fragmented,
            slice: self.slice,
        })
    }
}

impl PartialEq for Ipv6ExtensionsSlice<'_> {
    ghost use Rattle.std.specs.Prelude.{◌↔◌, IsTrue};
    ghost use Rattle.std.specs.Cmp.Rules.{comparing};
    ghost use Rattle.std.proofs.Common.{rules};
    ghost use Rattle.ip_ext_slices.specs.Ipv6ExtensionsSlice.{first_header_number, bytes, headers_in, same_slice};

    ghost eq = { same_slice };

    ghost laws = { Prim.search (comparing, rules) };

    #[tactic(auto, using(crate::proofs::SameLemmas::same_headers))]
    fn eq(&self, other: &Self) -> bool
        ensures answer { result ≡ same_slice self.now other.now }
        ensures same { IsTrue result ↔ ((first_header_number self.now ≡ first_header_number other.now)
            × (bytes self.now ≡ bytes other.now)) }
        ensures headers { IsTrue result ↔ (headers_in self.now ≡ headers_in other.now) }
    {
        self.first_header == other.first_header && self.slice == other.slice
    }
}

impl Eq for Ipv6ExtensionsSlice<'_> {
    ghost use Rattle.std.specs.Cmp.Rules.{comparing};
    ghost use Rattle.std.proofs.Common.{rules};

    ghost laws = { Prim.search (comparing, rules) };
}

impl Default for Ipv6ExtensionsSlice<'_> {
    ghost use Rattle.ip_ext_slices.specs.Ipv6ExtensionsSlice.{first_header_number, bytes};

    ghost is_default = { λ x. (first_header_number x ≡ None) × (bytes x ≡ []) };

    /// Returns a chain without headers.
    fn default() -> Self {
        Ipv6ExtensionsSlice {
            first_header: None,
            fragmented: false,
            slice: &[],
        }
    }
}
