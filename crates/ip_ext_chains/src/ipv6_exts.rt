//! Six places for IPv6 extension headers, parsed from bytes.
ghost use Rattle.std.specs.Prelude.{◌≡◌, ◌≤◌, ◌+◌, ℕ, [], take, Some, None, IfOk, IfErr};
ghost use Rattle.std.specs.Option.{option_map, option_map_or, ForSome};
ghost use Rattle.ip_spec.specs.Numbers.{ROUTING, FRAGMENT, AUTHENTICATION, DESTINATION_OPTIONS};
ghost use Rattle.ip_spec.specs.Header.{IsRawNumber};
ghost use Rattle.ip_spec.specs.Fields.{raw_len, auth_len, raw_fields, auth_fields};
ghost use Rattle.ip_spec.specs.Chain.{ExtHeader, headers_within};
ghost use Rattle.ip_spec.specs.Places.{raw_header, fragment_header, auth_header};
ghost use Rattle.ip_spec.specs.Demand.{IsLongestUnder};
ghost use Rattle.ip_spec.specs.Encodable.{IsEncoded, IsEncodable};
ghost use Rattle.ip_spec.specs.Fits.{FitsPlaces};
ghost use Rattle.ip_ext_headers.specs.Ipv6RawExtHeaderSlice.{bytes};
ghost use Rattle.ip_ext_headers.specs.IpAuthHeaderSlice.{bytes as auth_bytes};
ghost use Rattle.ip_ext_chains.specs.Fitting.{fitting_chain, fitting_fault, IsFittingAnswer};
ghost use Rattle.ip_ext_chains.specs.Slots.{AreOfNumber, value_at};
ghost use Rattle.ip_ext_chains.specs.Ipv6Extensions.{value_of, placed_fields, final_of, exts_len, has_none, is_fragmented};

use crate::err::Layer;
use crate::err::ipv6_exts::HeaderSliceError;
use crate::places::{Place, Places};
use crate::run::take_fitting;
use crate::{Ipv6ExtensionSlice, Ipv6RoutingExtensions};
use ip_base::IpNumber;
use ip_ext_headers::{
    IpAuthHeader, IpAuthHeaderSlice, Ipv6FragmentHeader, Ipv6RawExtHeader, Ipv6RawExtHeaderSlice,
};
use std::alloc::AllocError;

/// Six places for IPv6 extension headers: one for each kind, and two for destination options, one before a routing
/// header and one after it (RFC 8200, section 4.1). Two are equal if the fields in all places are.
#[derive(Debug, Drop)]
pub struct Ipv6Extensions {
    /// Hop-by-hop options (RFC 8200, section 4.3).
    pub hop_by_hop_options: Option<Ipv6RawExtHeader>,
    /// Destination options that no routing header precedes (RFC 8200, section 4.6).
    pub destination_options: Option<Ipv6RawExtHeader>,
    /// A routing header (RFC 8200, section 4.4), and destination options after it.
    pub routing: Option<Ipv6RoutingExtensions>,
    /// A fragment header (RFC 8200, section 4.5).
    pub fragment: Option<Ipv6FragmentHeader>,
    /// An authentication header (RFC 4302, section 2).
    pub auth: Option<IpAuthHeader>,
}

impl Ipv6Extensions {
    /// The smallest length of all headers, in bytes: none.
    pub const MIN_LEN: usize = 0;

    /// The largest length of all headers, in bytes.
    pub const MAX_LEN: usize = 9228;

    /// Parses the longest chain at the start of the bytes that has a place for each of its headers, for this start
    /// number. Returns the headers in their places, the number to which they lead, the bytes after them and the error
    /// that ended the chain, if any. Offsets in the error count from the start of `start_slice`. There is no error if
    /// the number is not an extension header's, and none if its place is occupied: the bytes there aren't parsed. Of
    /// truncated bytes, as in a capture, it returns the headers that lie wholly within them.
    #[inline(always)]
    #[tactic(auto, using(crate::proofs::PlacedLemmas::value_placed, crate::proofs::FittingLemmas::fitting_shorter))]
    pub fn from_slice_lax(
        start_ip_number: IpNumber,
        start_slice: &[u8],
    ) -> (
        Ipv6Extensions,
        IpNumber,
        &[u8],
        Option<(HeaderSliceError, Layer)>,
    )
        ensures longest { IsLongestUnder FitsPlaces start_ip_number.0 start_slice.now
            (fitting_chain start_ip_number.0 start_slice.now) }
        ensures answer { IsFittingAnswer start_ip_number.0 start_slice.now
            result.0 result.1.0 result.2.now result.3 }
        ensures truncated { (j : ℕ) → fitting_chain start_ip_number.0 (take j start_slice.now)
            ≡ headers_within j (fitting_chain start_ip_number.0 start_slice.now) }
    {
        let (places, number, rest, fault) = take_fitting(start_ip_number, start_slice);
        let mut exts = Self::default();
        exts.fill(&places);
        (exts, number, rest, fault)
    }

    /// Parses the headers as `from_slice_lax` does, and returns the error, if there is one, instead of the headers.
    #[inline(never)]
    #[tactic(auto, using(crate::proofs::PlacedLemmas::value_placed))]
    pub fn from_slice(
        start_ip_number: IpNumber,
        start_slice: &[u8],
    ) -> Result<(Ipv6Extensions, IpNumber, &[u8]), HeaderSliceError>
        ensures answer { IfOk result (λ x. IsFittingAnswer start_ip_number.0 start_slice.now
            x.0 x.1.0 x.2.now None) }
        ensures fault { IfErr result (λ e. option_map (λ f. f.0)
            (fitting_fault start_ip_number.0 start_slice.now) ≡ Some e) }
    {
        let (places, number, rest, fault) = take_fitting(start_ip_number, start_slice);
        match fault {
            Some((error, _)) => return Err(error),
            None => {}
        }
        let mut exts = Self::default();
        exts.fill(&places);
        Ok((exts, number, rest))
    }

    /// Fills this value, whose places are all free, in place.
    #[inline(never)]
    pub(crate) fn fill(&mut self, places: &Places<Ipv6ExtensionSlice<'_>>)
        requires empty { self.old ≡ value_of [] }
        requires numbers { AreOfNumber places.now }
        ensures { self.new ≡ value_at places.now }
    {
        put_raw(&mut self.hop_by_hop_options, places.raw(Place::HopByHop));
        put_raw(
            &mut self.destination_options,
            places.raw(Place::Destination),
        );
        put_routing(&mut self.routing, places.raw(Place::Routing));
        if let Some(routing) = &mut self.routing {
            let options = places.raw(Place::FinalDestination);
            put_raw(&mut routing.final_destination_options, options);
        }
        if let Some(header) = places.fragment() {
            self.fragment = Some(header.to_header());
        }
        put_auth(&mut self.auth, places.auth());
    }

    /// Returns the headers' length in bytes, 0 to 9228. Each header can be written: the ranges of its fields
    /// guarantee it.
    // Kept out of line, so that six places aren't moved (docs/DECISIONS.md, "Moves of large values").
    #[inline(never)]
    pub fn header_len(&self) -> usize
        ensures len { result ≡ exts_len self.now }
        ensures most { result ≤ 9228 }
        ensures encodable { IsEncodable (placed_fields self.now) }
    {
        raw_len(&self.hop_by_hop_options)
            + raw_len(&self.destination_options)
            + routing_len(&self.routing)
            + fragment_len(&self.fragment)
            + auth_len(&self.auth)
    }

    /// Returns whether no place is occupied.
    pub fn is_empty(&self) -> bool
        ensures { result ≡ has_none self.now }
    {
        self.hop_by_hop_options.is_none()
            && self.destination_options.is_none()
            && self.routing.is_none()
            && self.fragment.is_none()
            && self.auth.is_none()
    }

    /// Returns whether a fragment header is present and fragments the payload: its offset isn't 0, or more fragments
    /// follow.
    pub fn is_fragmenting_payload(&self) -> bool
        ensures { result ≡ is_fragmented self.now.fragment }
    {
        match &self.fragment {
            Some(fragment) => fragment.is_fragmenting_payload(),
            None => false,
        }
    }
}

/// Stores the header, if there is one, in the place, which is free. It is made there (docs/DECISIONS.md, "Moves of
/// large values").
#[inline(always)]
fn put_raw(place: &mut Option<Ipv6RawExtHeader>, header: Option<&Ipv6RawExtHeaderSlice<'_>>)
    requires { place.old ≡ None }
    ensures { place.new ≡ option_map (λ h. raw_fields (bytes h.now)) header.entry }
{
    if let Some(header) = header {
        header.copy_to(place.insert(Ipv6RawExtHeader::default()));
    }
}

/// Stores the routing header, if there is one, in the place, which is free, without options after it.
#[inline(always)]
fn put_routing(
    place: &mut Option<Ipv6RoutingExtensions>,
    header: Option<&Ipv6RawExtHeaderSlice<'_>>,
)
    requires { place.old ≡ None }
    ensures { place.new ≡ option_map (λ h. record {
      routing = raw_fields (bytes h.now);
      final_destination_options = None;
    }) header.entry }
{
    if let Some(header) = header {
        header.copy_to(&mut place.insert(Ipv6RoutingExtensions::blank()).routing);
    }
}

/// Stores the authentication header, if there is one, in the place, which is free.
#[inline(always)]
fn put_auth(place: &mut Option<IpAuthHeader>, header: Option<&IpAuthHeaderSlice<'_>>)
    requires { place.old ≡ None }
    ensures { place.new ≡ option_map (λ h. auth_fields (auth_bytes h.now)) header.entry }
{
    if let Some(header) = header {
        header.copy_to(place.insert(IpAuthHeader::default()));
    }
}

/// Returns the length in bytes of an optional header in the uniform format (RFC 6564).
fn raw_len(header: &Option<Ipv6RawExtHeader>) -> usize
    ensures len { result ≡ option_map_or raw_len header.now 0 }
    ensures most { result ≤ 2048 }
    ensures encodable { (n : ℕ) → IsRawNumber n → ForSome (option_map raw_header header.now)
        (λ x. (h : ExtHeader) × IsEncoded n x h) }
{
    match header {
        Some(header) => header.header_len(),
        None => 0,
    }
}

/// Returns the length in bytes of an optional routing header and the destination options after it.
fn routing_len(headers: &Option<Ipv6RoutingExtensions>) -> usize
    ensures len { result ≡ option_map_or (λ r. raw_len r.routing
        + option_map_or raw_len r.final_destination_options 0) headers.now 0 }
    ensures most { result ≤ 4096 }
    ensures routing { ForSome (option_map (λ r. raw_header r.routing) headers.now)
        (λ x. (h : ExtHeader) × IsEncoded ROUTING x h) }
    ensures final_destination { ForSome (option_map raw_header (final_of headers.now))
        (λ x. (h : ExtHeader) × IsEncoded DESTINATION_OPTIONS x h) }
{
    match headers {
        Some(headers) => {
            headers.routing.header_len() + raw_len(&headers.final_destination_options)
        }
        None => 0,
    }
}

/// Returns the length in bytes of an optional fragment header.
fn fragment_len(header: &Option<Ipv6FragmentHeader>) -> usize
    ensures len { result ≡ option_map_or (λ _. 8) header.now 0 }
    ensures encodable { ForSome (option_map fragment_header header.now)
        (λ x. (h : ExtHeader) × IsEncoded FRAGMENT x h) }
{
    match header {
        Some(header) => header.header_len(),
        None => 0,
    }
}

/// Returns the length in bytes of an optional authentication header.
fn auth_len(header: &Option<IpAuthHeader>) -> usize
    ensures len { result ≡ option_map_or auth_len header.now 0 }
    ensures most { result ≤ 1028 }
    ensures encodable { ForSome (option_map auth_header header.now)
        (λ x. (h : ExtHeader) × IsEncoded AUTHENTICATION x h) }
{
    match header {
        Some(header) => header.header_len(),
        None => 0,
    }
}

impl Clone for Ipv6Extensions {
    ghost use Rattle.std.specs.Prelude.{⊤};

    ghost is_clone = { λ v copy. copy ≡ v };

    ghost is_infallible = { λ _. ⊤ };

    fn clone(&self) -> Result<Ipv6Extensions, AllocError> {
        Ok(Ipv6Extensions {
            hop_by_hop_options: self.hop_by_hop_options.clone()?,
            destination_options: self.destination_options.clone()?,
            routing: self.routing.clone()?,
            fragment: self.fragment.clone()?,
            auth: self.auth.clone()?,
        })
    }
}

impl PartialEq for Ipv6Extensions {
    ghost use Rattle.std.specs.Prelude.{◌↔◌, IsTrue};
    ghost use Rattle.std.specs.Cmp.{partial_equiv_from_equiv};
    ghost use Rattle.ip_ext_chains.specs.ExtsEqual.{exts_equivalence, exts_equal};

    ghost eq = { exts_equal };

    ghost laws = { partial_equiv_from_equiv exts_equivalence };

    fn eq(&self, other: &Self) -> bool
        ensures answer { result ≡ exts_equal self.now other.now }
        ensures same { IsTrue result ↔ (self.now ≡ other.now) }
    {
        self.hop_by_hop_options == other.hop_by_hop_options
            && self.destination_options == other.destination_options
            && self.routing == other.routing
            && self.fragment == other.fragment
            && self.auth == other.auth
    }
}

impl Eq for Ipv6Extensions {
    ghost use Rattle.ip_ext_chains.specs.ExtsEqual.{exts_equivalence};

    ghost laws = { exts_equivalence };
}

impl Default for Ipv6Extensions {
    ghost use Rattle.std.specs.Prelude.{[]};
    ghost use Rattle.ip_ext_chains.specs.Ipv6Extensions.{value_of};

    ghost is_default = { λ v. v ≡ value_of [] };

    /// Returns a value without headers.
    fn default() -> Self {
        Ipv6Extensions {
            hop_by_hop_options: None,
            destination_options: None,
            routing: None,
            fragment: None,
            auth: None,
        }
    }
}
