//! A cursor over an IPv6 chain, which parses each header when it is asked for.
ghost use Rattle.std.specs.Prelude.{◌≡◌, ◌==◌, ◌≤◌, length};
ghost use Rattle.ip_spec.specs.Chain.{leads_to};
ghost use Rattle.ip_spec.specs.Parse.{rest_after};
ghost use Rattle.ip_ext_slices.specs.Longest.{longest_chain, longest_from};

use crate::Ipv6ExtensionSlice;
use crate::err::Layer;
use crate::err::ipv6_exts::HeaderSliceError;
use crate::step::{cold_fault, header_at, is_extension};
use ip_base::{IpNumber, ip_number};
use std::alloc::AllocError;

/// The headers of the longest chain (RFC 8200, section 4) at the start of some bytes, once and in order, and `None`
/// from then on. `next` parses one header, so a caller that stops early doesn't pay for the rest, and one that goes
/// to the end passes over the bytes once. Two cursors are equal if they were created with the same number and bytes
/// and have reached the same position.
#[derive(Debug, Drop)]
pub struct Ipv6ExtensionsCursor<'a> {
    // Only `eq` reads it; the contracts of `next` and `end` refer to it.
    start: IpNumber,
    bytes: &'a [u8],
    number: IpNumber,
    rest: &'a [u8],
    pub ghost leads: { leads_to number.0 (longest_from (length rest.now == length bytes.now) number.0 rest.now)
        ≡ leads_to start.0 (longest_chain start.0 bytes.now) },
    pub ghost after: { rest_after (longest_from (length rest.now == length bytes.now) number.0 rest.now) rest.now
        ≡ rest_after (longest_chain start.0 bytes.now) bytes.now },
    pub ghost within: { length rest.now ≤ length bytes.now },
}

impl<'a> Ipv6ExtensionsCursor<'a> {
    ghost use Rattle.std.specs.Prelude.{◌≢◌, ◌*◌, [], IfSome, IfNone};
    ghost use Rattle.ip_spec.specs.Chain.{IsLongestChain};
    ghost use Rattle.ip_ext_slices.specs.ChainAnswer.{IsChainAnswer};
    ghost use Rattle.ip_ext_slices.specs.Ipv6ExtensionsCursor.{start, input, number_left, bytes_left, headers_left};

    /// Returns a cursor over the longest chain at the start of `bytes`, for this start number.
    #[inline(always)]
    #[tactic(auto, using(crate::proofs::LongestLemmas::longest_from_least))]
    pub fn new(start_ip_number: IpNumber, bytes: &'a [u8]) -> Ipv6ExtensionsCursor<'a>
        ensures start { start result ≡ start_ip_number.0 }
        ensures input { input result ≡ bytes.now }
        ensures number { number_left result ≡ start_ip_number.0 }
        ensures rest { bytes_left result ≡ bytes.now }
        ensures headers { headers_left result ≡ longest_chain start_ip_number.0 bytes.now }
        ensures longest { IsLongestChain start_ip_number.0 bytes.now (headers_left result) }
        ensures bound { 8 * length (headers_left result) ≤ length bytes.now }
    {
        Ipv6ExtensionsCursor {
            start: start_ip_number,
            bytes,
            number: start_ip_number,
            rest: bytes,
        }
    }

    /// Returns the number of the next header; from the end on, the number to which the chain leads.
    #[inline(always)]
    pub fn next_number(&self) -> IpNumber
        ensures { result.0 ≡ number_left self.now }
    {
        self.number
    }

    /// Returns the bytes after the last header returned; all of them if there is none.
    #[inline(always)]
    pub fn rest(&self) -> &'a [u8]
        ensures { result.now ≡ bytes_left self.now }
    {
        self.rest
    }

    /// Returns the end of the chain once no header is left, and `None` before: the number to which the chain leads,
    /// the bytes after it, and the error that ended it, if any, with its layer. Offsets in the error count from the
    /// start of the bytes given to `new`.
    #[inline(always)]
    #[tactic(auto, using(crate::proofs::FaultLemmas::end_at_other, crate::proofs::LongestLemmas::longest_from_end))]
    pub fn end(&self) -> Option<(IpNumber, &'a [u8], Option<(HeaderSliceError, Layer)>)>
        ensures before { IfNone result (headers_left self.now ≢ []) }
        ensures last { IfSome result (λ _. headers_left self.now ≡ []) }
        ensures answer { IfSome result (λ e. IsChainAnswer (start self.now) (input self.now)
            (longest_chain (start self.now) (input self.now)) e.0.0 e.1.now e.2) }
    {
        if !is_extension(self.number) {
            return Some((self.number, self.rest, None));
        }
        let len = self.bytes.len() - self.rest.len();
        match header_at(self.rest.len() == self.bytes.len(), self.number, self.rest) {
            Some(_) => None,
            None => {
                let fault = cold_fault(len == 0, self.number, self.rest, len);
                Some((self.number, self.rest, Some(fault)))
            }
        }
    }
}

impl<'a> Iterator for Ipv6ExtensionsCursor<'a> {
    type Item = Ipv6ExtensionSlice<'a>;

    ghost use Rattle.std.specs.Iterator.{item_count};
    ghost use Rattle.ip_ext_slices.specs.Ipv6ExtensionsCursor.{headers_left, GivesHeader};

    ghost next_gives = { GivesHeader };

    ghost remaining = { item_count headers_left };

    #[inline(always)]
    #[tactic(auto, using(crate::proofs::LongestLemmas::goes_after, crate::proofs::LongestLemmas::longest_from_end))]
    fn next(&mut self) -> Option<Ipv6ExtensionSlice<'a>> {
        let first = self.rest.len() == self.bytes.len();
        let Some(header) = header_at(first, self.number, self.rest) else {
            return None;
        };
        self.number = header.next_header();
        self.rest = self.rest.split_at(header.slice().len()).1;
        Some(header)
    }
}

impl<'a> Clone for Ipv6ExtensionsCursor<'a> {
    ghost use Rattle.std.specs.Prelude.{⊤};
    ghost use Rattle.ip_ext_slices.specs.Ipv6ExtensionsCursor.{IsSameCursor};

    ghost is_clone = { IsSameCursor };

    ghost is_infallible = { λ _. ⊤ };

    fn clone(&self) -> Result<Ipv6ExtensionsCursor<'a>, AllocError> {
        Ok(Ipv6ExtensionsCursor {
            start: self.start,
            bytes: self.bytes,
            number: self.number,
            rest: self.rest,
        })
    }
}

impl PartialEq for Ipv6ExtensionsCursor<'_> {
    ghost use Rattle.std.specs.Prelude.{◌↔◌, IsTrue};
    ghost use Rattle.std.specs.Cmp.Rules.{comparing};
    ghost use Rattle.std.proofs.Common.{rules};
    ghost use Rattle.ip_ext_slices.specs.Ipv6ExtensionsCursor.{IsSameCursor, same_cursor};

    ghost eq = { same_cursor };

    ghost laws = { Prim.search (comparing, rules) };

    fn eq(&self, other: &Self) -> bool
        ensures answer { result ≡ same_cursor self.now other.now }
        ensures same { IsTrue result ↔ IsSameCursor self.now other.now }
    {
        self.start == other.start
            && self.bytes == other.bytes
            && self.number == other.number
            && self.rest == other.rest
    }
}

impl Eq for Ipv6ExtensionsCursor<'_> {
    ghost use Rattle.std.specs.Cmp.Rules.{comparing};
    ghost use Rattle.std.proofs.Common.{rules};

    ghost laws = { Prim.search (comparing, rules) };
}

impl Default for Ipv6ExtensionsCursor<'_> {
    ghost use Rattle.std.specs.Prelude.{[]};
    ghost use Rattle.ip_spec.specs.Numbers.{NO_NEXT_HEADER};
    ghost use Rattle.ip_ext_slices.specs.Ipv6ExtensionsCursor.{start, input, number_left, bytes_left};

    ghost is_default = { λ c. (start c ≡ NO_NEXT_HEADER) × (input c ≡ [])
        × (number_left c ≡ NO_NEXT_HEADER) × (bytes_left c ≡ []) };

    /// Returns a cursor without headers. Its number is 59, since 0 would mean hop-by-hop options.
    fn default() -> Self {
        Ipv6ExtensionsCursor::new(ip_number::IPV6_NO_NEXT_HEADER, &[])
    }
}
