//! The extension headers of IPv4, owned: parsed, linked and written.
ghost use Rattle.std.specs.Prelude.{◌≡◌, ◌≤◌, ◌<◌, ◌+◌, ◌++◌, ◌↔◌, ℕ, List, length, take, Option, Some, None, Ok, Err, IsOk, OnOk, OnErr, IfOk, IfErr, is_some, is_none, vec_len, vec_capacity, if◌then◌else◌};
ghost use Rattle.std.specs.Option.{option_map, option_map_or};
ghost use Rattle.ip_spec.specs.Numbers.{AUTHENTICATION};
ghost use Rattle.ip_spec.specs.Fields.{AuthFields, auth_len};
ghost use Rattle.ip_spec.specs.Encoding.{AppendsOne, cleared_chain};
ghost use Rattle.ip_spec.specs.Chain.{bytes_of, headers_within};
ghost use Rattle.ip_spec.specs.Demand.{IsLongestUnder, AtMostOneOf};
ghost use Rattle.ip_ext_slices.specs.Ipv4Longest.{longest_ipv4_chain};
ghost use Rattle.ip_ext_slices.specs.Ipv4Fault.{ipv4_chain_fault};
ghost use Rattle.ip_ext_chains.specs.Ipv4Parse.{IsIpv4Answer, ipv4_value};
ghost use Rattle.ip_ext_chains.specs.Ipv4ExtensionsSlice.{headers_in};
ghost use Rattle.ip_ext_chains.specs.Ipv4Walk.{ipv4_walk, IsIpv4Encoding};
ghost use Rattle.ip_ext_chains.specs.declared.err.ipv4_exts.header_write_error.HeaderWriteError.TheVariants.{Io, Content};
ghost use Rattle.ip_spec.specs.Parse.{IsParsed};

use crate::Ipv4ExtensionsSlice;
use crate::err::ip_auth::HeaderSliceError;
use crate::err::ipv4_exts::{ExtsWalkError, HeaderWriteError};
use ip_base::{IpNumber, ip_number};
use ip_ext_headers::IpAuthHeader;
use std::alloc::{AllocError, Allocator};

/// The extension headers of an IPv4 packet: an authentication header (RFC 4302, section 2), or none.
#[derive(Debug, Drop)]
pub struct Ipv4Extensions {
    /// The authentication header.
    pub auth: Option<IpAuthHeader>,
}

impl Ipv4Extensions {
    /// The smallest length of the headers, in bytes: none.
    pub const MIN_LEN: usize = 0;

    /// The largest length of the headers, in bytes: that of an authentication header.
    pub const MAX_LEN: usize = 1028;

    /// Parses the headers as `Ipv4ExtensionsSlice::from_slice_lax` does, and returns the authentication header as an
    /// owned value.
    #[inline(always)]
    #[tactic(auto, using(ip_ext_slices::proofs::Ipv4Lemmas::whole_header))]
    pub fn from_slice_lax(
        start_ip_number: IpNumber,
        start_slice: &[u8],
    ) -> (Ipv4Extensions, IpNumber, &[u8], Option<HeaderSliceError>)
        ensures longest { IsLongestUnder (AtMostOneOf AUTHENTICATION) start_ip_number.0
            start_slice.now (longest_ipv4_chain start_ip_number.0 start_slice.now) }
        ensures answer { IsIpv4Answer ipv4_value start_ip_number.0 start_slice.now
            result.0.auth result.1.0 result.2.now result.3 }
        ensures cleared { IsIpv4Encoding start_ip_number.0 result.0.auth
            (bytes_of (cleared_chain (longest_ipv4_chain start_ip_number.0 start_slice.now))) }
        ensures truncated { (j : ℕ) → longest_ipv4_chain start_ip_number.0 (take j start_slice.now)
            ≡ headers_within j (longest_ipv4_chain start_ip_number.0 start_slice.now) }
    {
        let (slices, number, rest, fault) = Self::scan(start_ip_number, start_slice);
        let mut exts = Self::default();
        exts.fill(&slices);
        (exts, number, rest, fault)
    }

    /// Parses the headers as `from_slice_lax` does, and returns the error, if there is one, instead of the headers.
    #[inline(always)]
    pub fn from_slice(
        start_ip_number: IpNumber,
        slice: &[u8],
    ) -> Result<(Ipv4Extensions, IpNumber, &[u8]), HeaderSliceError>
        ensures answer { IfOk result (λ x. IsIpv4Answer ipv4_value start_ip_number.0 slice.now
            x.0.auth x.1.0 x.2.now None) }
        ensures fault { IfErr result (λ e. ipv4_chain_fault start_ip_number.0 slice.now ≡ Some e) }
    {
        let (slices, number, rest) = Ipv4ExtensionsSlice::from_slice(start_ip_number, slice)?;
        Ok((slices.to_header(), number, rest))
    }

    /// Returns what `Ipv4ExtensionsSlice::from_slice_lax` returns. It is kept out of line, so that only one path
    /// builds and moves the owned header.
    #[inline(never)]
    fn scan(
        start: IpNumber,
        bytes: &[u8],
    ) -> (
        Ipv4ExtensionsSlice<'_>,
        IpNumber,
        &[u8],
        Option<HeaderSliceError>,
    )
        ensures { IsIpv4Answer (λ c. c) start.0 bytes.now
            (headers_in result.0) result.1.0 result.2.now result.3 }
    {
        if start != ip_number::AUTH {
            // This exit returns zeros but for the number and the bytes, and moves nothing.
            return (Ipv4ExtensionsSlice { auth: None }, start, bytes, None);
        }
        Ipv4ExtensionsSlice::from_slice_lax(start, bytes)
    }

    /// Fills this value, which has no header yet, in place.
    #[inline(never)]
    fn fill(&mut self, slices: &Ipv4ExtensionsSlice<'_>)
        requires { self.old.auth ≡ None }
        ensures { self.new.auth ≡ ipv4_value (headers_in slices.now) }
    {
        let Some(slice) = &slices.auth else {
            return;
        };
        self.auth = Some(IpAuthHeader::default());
        if let Some(header) = &mut self.auth {
            slice.copy_to(header);
        }
    }

    /// Returns the number to which the headers lead; `first_next_header` is the packet's protocol number. Returns an
    /// error if a header is present and that number doesn't refer to it.
    pub fn next_header(&self, first_next_header: IpNumber) -> Result<IpNumber, ExtsWalkError>
        ensures answer { result ≡ ipv4_walk self.now.auth first_next_header.0 }
        ensures exactly { (m : IpNumber) → (result ≡ Ok m) ↔ ((s : List ℕ)
            × IsParsed (AtMostOneOf AUTHENTICATION) (λ c. ipv4_value c ≡ self.now.auth)
            first_next_header.0 m.0 s) }
    {
        match &self.auth {
            None => Ok(first_next_header),
            Some(header) if first_next_header == ip_number::AUTH => {
                // The header can be written, as the contract of this call says.
                let _ = header.header_len();
                Ok(header.next_header)
            }
            Some(_) => Err(ExtsWalkError::ExtNotReferenced {
                missing_ext: ip_number::AUTH,
            }),
        }
    }

    /// Sets the number after the last header. Returns the number of the first header, for the packet's protocol
    /// field; if there is no header, that is the number itself.
    pub fn set_next_headers(&mut self, last_protocol_number: IpNumber) -> IpNumber
        ensures links { self.new.auth ≡ option_map (λ (v : AuthFields).
            record v { next_header = last_protocol_number.0 }) self.old.auth }
        ensures first { result ≡ (if is_some self.old.auth then record { 0 = AUTHENTICATION }
            else last_protocol_number) }
        ensures leads { ipv4_walk self.new.auth result.0 ≡ Ok last_protocol_number }
    {
        match &mut self.auth {
            Some(header) => {
                header.next_header = last_protocol_number;
                ip_number::AUTH
            }
            None => last_protocol_number,
        }
    }

    /// Appends the header's bytes; `start_ip_number` is the packet's protocol number. The bytes parse as this value,
    /// with nothing left. If a header is present or that number is not 51, they do so whatever bytes follow.
    ///
    /// Returns `Content` if a header is present and that number doesn't refer to it; this error comes before any
    /// request for memory. Returns `Io` if a header is present and the vector has no room for it and can't grow.
    /// After an error the vector's bytes are unchanged.
    #[inline(always)]
    pub fn write<A: Allocator>(
        &self,
        out: &mut Vec<u8, A>,
        start_ip_number: IpNumber,
    ) -> Result<(), HeaderWriteError>
        ensures walk { OnOk result (IsOk (ipv4_walk self.now.auth start_ip_number.0)) }
        ensures content { (fault : ExtsWalkError) → result ≡ Err (Content fault)
            → ipv4_walk self.now.auth start_ip_number.0 ≡ Err fault }
        ensures ok { OnOk result (AppendsOne (IsIpv4Encoding start_ip_number.0 self.now.auth)
            out.old.items out.new.items) }
        ensures only { (b d : List ℕ) → IsIpv4Encoding start_ip_number.0 self.now.auth b
            → IsIpv4Encoding start_ip_number.0 self.now.auth d → b ≡ d }
        ensures alike { (v : Option AuthFields) (b : List ℕ)
            → IsIpv4Encoding start_ip_number.0 self.now.auth b
            → IsIpv4Encoding start_ip_number.0 v b → self.now.auth ≡ v }
        ensures parsed_again { OnOk result ((b r : List ℕ) (m : IpNumber)
            → out.new.items ≡ out.old.items ++ b
            → ipv4_walk self.now.auth start_ip_number.0 ≡ Ok m
            → (self.now.auth ≡ None → start_ip_number.0 ≡ AUTHENTICATION → ⊥)
            → IsIpv4Answer ipv4_value start_ip_number.0 (b ++ r) self.now.auth m.0 r None) }
        ensures parsed_whole { OnOk result ((b : List ℕ) (m : IpNumber)
            → out.new.items ≡ out.old.items ++ b
            → ipv4_walk self.now.auth start_ip_number.0 ≡ Ok m
            → IsParsed (AtMostOneOf AUTHENTICATION) (λ c. ipv4_value c ≡ self.now.auth)
            start_ip_number.0 m.0 b) }
        ensures len { OnOk result
            (vec_len out.new ≡ vec_len out.old + option_map_or auth_len self.now.auth 0) }
        ensures unchanged { OnErr result (out.new.items ≡ out.old.items) }
        ensures full { (refused : AllocError) → result ≡ Err (Io refused)
            → vec_capacity out.old < vec_len out.old + option_map_or auth_len self.now.auth 0 }
        ensures some { (refused : AllocError) → result ≡ Err (Io refused)
            → 0 < option_map_or auth_len self.now.auth 0 }
        ensures named { (refused : AllocError) → result ≡ Err (Io refused)
            → IsOk (ipv4_walk self.now.auth start_ip_number.0) }
        ensures capacity { vec_capacity out.old ≤ vec_capacity out.new }
    {
        let Some(header) = &self.auth else {
            return Ok(());
        };
        if start_ip_number != ip_number::AUTH {
            return Err(HeaderWriteError::Content(ExtsWalkError::ExtNotReferenced {
                missing_ext: ip_number::AUTH,
            }));
        }
        // The header can be written, as the contract of this call says.
        let _ = header.header_len();
        match header.write(out) {
            Ok(()) => Ok(()),
            Err(e) => Err(HeaderWriteError::Io(e)),
        }
    }

    /// Returns the headers' length in bytes, 0 or 12 to 1028.
    pub fn header_len(&self) -> usize
        ensures len { result ≡ option_map_or auth_len self.now.auth 0 }
        ensures most { result ≤ 1028 }
    {
        match &self.auth {
            Some(header) => header.header_len(),
            None => 0,
        }
    }

    /// Returns whether there is no header.
    pub fn is_empty(&self) -> bool
        ensures { result ≡ is_none self.now.auth }
    {
        self.auth.is_none()
    }
}

impl Clone for Ipv4Extensions {
    ghost use Rattle.std.specs.Prelude.{⊤, ◌≡◌};

    ghost is_clone = { λ x copy. copy ≡ x };

    ghost is_infallible = { λ _. ⊤ };

    fn clone(&self) -> Result<Ipv4Extensions, AllocError> {
        match &self.auth {
            Some(header) => Ok(Ipv4Extensions {
                auth: Some(header.clone()?),
            }),
            None => Ok(Ipv4Extensions { auth: None }),
        }
    }
}

impl Default for Ipv4Extensions {
    ghost use Rattle.std.specs.Prelude.{◌≡◌, None};

    ghost is_default = { λ x. x.auth ≡ None };

    /// Returns a value without a header.
    fn default() -> Ipv4Extensions {
        Ipv4Extensions { auth: None }
    }
}

impl PartialEq for Ipv4Extensions {
    ghost use Rattle.std.specs.Prelude.{◌↔◌, IsTrue};
    ghost use Rattle.std.specs.Cmp.{partial_equiv_from_equiv};
    ghost use Rattle.ip_ext_chains.specs.Ipv4Equal.{ipv4_exts_equal, ipv4_exts_equivalence};

    ghost eq = { ipv4_exts_equal };

    ghost laws = { partial_equiv_from_equiv ipv4_exts_equivalence };

    fn eq(&self, other: &Self) -> bool
        ensures answer { result ≡ ipv4_exts_equal self.now other.now }
        ensures same { IsTrue result ↔ (self.now ≡ other.now) }
    {
        self.auth == other.auth
    }
}

impl Eq for Ipv4Extensions {
    ghost use Rattle.ip_ext_chains.specs.Ipv4Equal.{ipv4_exts_equivalence};

    ghost laws = { ipv4_exts_equivalence };
}
