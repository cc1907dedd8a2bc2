//! An iterator over the headers of a parsed IPv6 chain.
ghost use Rattle.std.specs.Prelude.{◌≡◌};
ghost use Rattle.ip_spec.specs.Chain.{bytes_of};
ghost use Rattle.ip_ext_slices.specs.Longest.{longest_chain};

use crate::Ipv6ExtensionSlice;
use crate::step::header_at;
use ip_base::{IpNumber, ip_number};
use std::alloc::AllocError;

/// The headers of an IPv6 chain, once and in order, and `None` from then on. Two iterators are equal if the number of
/// the next header and the remaining bytes are.
#[derive(Debug, Drop)]
pub struct Ipv6ExtensionSliceIter<'a> {
    pub(crate) next_header: IpNumber,
    pub(crate) rest: &'a [u8],
    pub ghost whole: { bytes_of (longest_chain next_header.0 rest.now) ≡ rest.now },
}

impl<'a> Ipv6ExtensionSliceIter<'a> {
    ghost use Rattle.ip_ext_slices.specs.Ipv6ExtensionSliceIter.{number_left, bytes_left};

    /// Returns the number of the next header; after the last one, the number to which the chain leads.
    #[inline(always)]
    pub fn next_number(&self) -> IpNumber
        ensures { result.0 ≡ number_left self.now }
    {
        self.next_header
    }

    /// Returns the bytes of the remaining headers.
    #[inline(always)]
    pub fn rest(&self) -> &'a [u8]
        ensures { result.now ≡ bytes_left self.now }
    {
        self.rest
    }
}

impl<'a> Iterator for Ipv6ExtensionSliceIter<'a> {
    type Item = Ipv6ExtensionSlice<'a>;

    ghost use Rattle.std.specs.Iterator.{YieldsFirstBy, item_count};
    ghost use Rattle.ip_ext_slices.specs.Ipv6ExtensionSlice.{header_of};
    ghost use Rattle.ip_ext_slices.specs.Ipv6ExtensionSliceIter.{headers_left};

    ghost next_gives = { YieldsFirstBy header_of headers_left };

    ghost remaining = { item_count headers_left };

    #[tactic(auto, using(crate::proofs::LongestLemmas::whole_goes_on, crate::proofs::LongestLemmas::whole_split, crate::proofs::LongestLemmas::some_where_next))]
    fn next(&mut self) -> Option<Ipv6ExtensionSlice<'a>> {
        if self.rest.is_empty() {
            return None;
        }
        // The bytes are whole headers, so they start with one.
        let header = header_at(true, self.next_header, self.rest).unwrap();
        self.next_header = header.next_header();
        self.rest = self.rest.split_at(header.slice().len()).1;
        Some(header)
    }
}

impl<'a> Clone for Ipv6ExtensionSliceIter<'a> {
    ghost use Rattle.std.specs.Prelude.{⊤};
    ghost use Rattle.ip_ext_slices.specs.Ipv6ExtensionSliceIter.{number_left, bytes_left};

    ghost is_clone = { λ it copy. (number_left copy ≡ number_left it)
        × (bytes_left copy ≡ bytes_left it) };

    ghost is_infallible = { λ _. ⊤ };

    fn clone(&self) -> Result<Ipv6ExtensionSliceIter<'a>, AllocError> {
        Ok(Ipv6ExtensionSliceIter {
            next_header: self.next_header,
            rest: self.rest,
        })
    }
}

impl PartialEq for Ipv6ExtensionSliceIter<'_> {
    ghost use Rattle.std.specs.Prelude.{◌↔◌, IsTrue};
    ghost use Rattle.std.specs.Cmp.Rules.{comparing};
    ghost use Rattle.std.proofs.Common.{rules};
    ghost use Rattle.ip_ext_slices.specs.Ipv6ExtensionSliceIter.{number_left, bytes_left, same_left};

    ghost eq = { same_left };

    ghost laws = { Prim.search (comparing, rules) };

    fn eq(&self, other: &Self) -> bool
        ensures answer { result ≡ same_left self.now other.now }
        ensures same { IsTrue result ↔ ((number_left self.now ≡ number_left other.now)
            × (bytes_left self.now ≡ bytes_left other.now)) }
    {
        self.next_header == other.next_header && self.rest == other.rest
    }
}

impl Eq for Ipv6ExtensionSliceIter<'_> {
    ghost use Rattle.std.specs.Cmp.Rules.{comparing};
    ghost use Rattle.std.proofs.Common.{rules};

    ghost laws = { Prim.search (comparing, rules) };
}

impl Default for Ipv6ExtensionSliceIter<'_> {
    ghost use Rattle.std.specs.Prelude.{[]};
    ghost use Rattle.ip_spec.specs.Numbers.{NO_NEXT_HEADER};
    ghost use Rattle.ip_ext_slices.specs.Ipv6ExtensionSliceIter.{number_left, bytes_left};

    ghost is_default = { λ it. (number_left it ≡ NO_NEXT_HEADER) × (bytes_left it ≡ []) };

    /// Returns an iterator without headers. Its number is 59, since 0 would mean hop-by-hop options.
    fn default() -> Self {
        Ipv6ExtensionSliceIter {
            next_header: ip_number::IPV6_NO_NEXT_HEADER,
            rest: &[],
        }
    }
}
