//! The extension headers of IPv4, borrowed.
ghost use Rattle.std.specs.Prelude.{◌≡◌, ℕ, [], take, IfOk, IfErr, Some, None};
ghost use Rattle.ip_spec.specs.Numbers.{AUTHENTICATION};
ghost use Rattle.ip_spec.specs.Chain.{headers_within, is_empty};
ghost use Rattle.ip_spec.specs.Demand.{IsLongestUnder, AtMostOneOf};
ghost use Rattle.ip_ext_slices.specs.Ipv4Longest.{longest_ipv4_chain};
ghost use Rattle.ip_ext_slices.specs.Ipv4Fault.{ipv4_chain_fault};
ghost use Rattle.ip_ext_chains.specs.Ipv4Parse.{IsIpv4Answer, ipv4_value};

use crate::Ipv4Extensions;
use crate::err::ip_auth::HeaderSliceError;
use ip_base::{IpNumber, ip_number};
use ip_ext_headers::IpAuthHeaderSlice;

/// The extension headers of an IPv4 packet, borrowed from the caller's bytes: an authentication header (RFC 4302,
/// section 2), or none. Two are equal if their headers' bytes are.
#[derive(Clone, Copy, Debug)]
pub struct Ipv4ExtensionsSlice<'a> {
    /// The authentication header.
    pub auth: Option<IpAuthHeaderSlice<'a>>,
}

impl<'a> Ipv4ExtensionsSlice<'a> {
    ghost use Rattle.ip_ext_chains.specs.Ipv4ExtensionsSlice.{headers_in};

    /// Parses the longest chain of at most one authentication header at the start of the bytes, for this start
    /// number. Returns the chain, the number to which it leads, the bytes after it and the error that ended it, if
    /// any. There is an error only if the start number is 51 and the bytes don't start with an authentication header.
    /// The bytes after a header aren't parsed, even if its next header is 51 again. Of truncated bytes, as in a
    /// capture, it returns the header if it lies wholly within them.
    #[inline(always)]
    #[tactic(auto, using(ip_ext_slices::proofs::Ipv4Lemmas::whole_header, ip_ext_slices::proofs::Ipv4Lemmas::none_longest))]
    pub fn from_slice_lax(
        start_ip_number: IpNumber,
        start_slice: &'a [u8],
    ) -> (
        Ipv4ExtensionsSlice<'a>,
        IpNumber,
        &'a [u8],
        Option<HeaderSliceError>,
    )
        ensures longest { IsLongestUnder (AtMostOneOf AUTHENTICATION)
            start_ip_number.0 start_slice.now (headers_in result.0) }
        ensures answer { IsIpv4Answer (λ c. c) start_ip_number.0 start_slice.now
            (headers_in result.0) result.1.0 result.2.now result.3 }
        ensures truncated { (j : ℕ) → longest_ipv4_chain start_ip_number.0 (take j start_slice.now)
            ≡ headers_within j (headers_in result.0) }
    {
        let none = Ipv4ExtensionsSlice { auth: None };
        if start_ip_number != ip_number::AUTH {
            return (none, start_ip_number, start_slice, None);
        }
        match IpAuthHeaderSlice::from_slice(start_slice) {
            Ok(header) => {
                let rest = &start_slice[header.slice().len()..];
                let found = Ipv4ExtensionsSlice { auth: Some(header) };
                (found, header.next_header(), rest, None)
            }
            Err(fault) => (none, start_ip_number, start_slice, Some(fault)),
        }
    }

    /// Parses the headers as `from_slice_lax` does, and returns the error, if there is one, instead of the headers.
    #[inline(always)]
    pub fn from_slice(
        start_ip_number: IpNumber,
        start_slice: &'a [u8],
    ) -> Result<(Ipv4ExtensionsSlice<'a>, IpNumber, &'a [u8]), HeaderSliceError>
        ensures answer { IfOk result (λ x. IsIpv4Answer (λ c. c) start_ip_number.0 start_slice.now
            (headers_in x.0) x.1.0 x.2.now None) }
        ensures fault { IfErr result (λ e.
            ipv4_chain_fault start_ip_number.0 start_slice.now ≡ Some e) }
    {
        if start_ip_number != ip_number::AUTH {
            let none = Ipv4ExtensionsSlice { auth: None };
            return Ok((none, start_ip_number, start_slice));
        }
        match IpAuthHeaderSlice::from_slice(start_slice) {
            Ok(header) => {
                let rest = &start_slice[header.slice().len()..];
                let found = Ipv4ExtensionsSlice { auth: Some(header) };
                Ok((found, header.next_header(), rest))
            }
            Err(fault) => Err(fault),
        }
    }

    /// Returns the headers as an owned value.
    #[inline(always)]
    pub fn to_header(&self) -> Ipv4Extensions
        ensures { result.auth ≡ ipv4_value (headers_in self.now) }
    {
        match &self.auth {
            Some(header) => Ipv4Extensions {
                auth: Some(header.to_header()),
            },
            None => Ipv4Extensions { auth: None },
        }
    }

    /// Returns whether there is no header.
    pub fn is_empty(&self) -> bool
        ensures { result ≡ is_empty (headers_in self.now) }
    {
        self.auth.is_none()
    }
}

impl PartialEq for Ipv4ExtensionsSlice<'_> {
    ghost use Rattle.std.specs.Prelude.{◌↔◌, IsTrue};
    ghost use Rattle.std.specs.Cmp.Rules.{comparing};
    ghost use Rattle.std.proofs.Common.{rules};
    ghost use Rattle.ip_ext_chains.specs.Ipv4ExtensionsSlice.{headers_in, same_slices};

    ghost eq = { same_slices };

    ghost laws = { Prim.search (comparing, rules) };

    fn eq(&self, other: &Self) -> bool
        ensures answer { result ≡ same_slices self.now other.now }
        ensures same { IsTrue result ↔ (headers_in self.now ≡ headers_in other.now) }
    {
        self.auth == other.auth
    }
}

impl Eq for Ipv4ExtensionsSlice<'_> {
    ghost use Rattle.std.specs.Cmp.Rules.{comparing};
    ghost use Rattle.std.proofs.Common.{rules};

    ghost laws = { Prim.search (comparing, rules) };
}

impl Default for Ipv4ExtensionsSlice<'_> {
    ghost use Rattle.ip_ext_chains.specs.Ipv4ExtensionsSlice.{headers_in};

    ghost is_default = { λ x. headers_in x ≡ [] };

    /// Returns a value without a header.
    fn default() -> Self {
        Ipv4ExtensionsSlice { auth: None }
    }
}
