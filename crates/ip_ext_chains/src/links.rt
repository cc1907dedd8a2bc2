//! The links between headers in six places: followed from a number, and set from the last place to the first.
ghost use Rattle.std.specs.Prelude.{◌≡◌, ◌↔◌, ℕ, List, Ok, is_some, if◌then◌else◌};
ghost use Rattle.std.specs.Option.{option_map};
ghost use Rattle.ip_spec.specs.Numbers.{ROUTING, FRAGMENT, AUTHENTICATION, DESTINATION_OPTIONS};
ghost use Rattle.ip_spec.specs.Places.{Place as spec_place, places, raw_header, fragment_header, auth_header};
ghost use Rattle.ip_spec.specs.Walk.{IsWalkAnswer};
ghost use Rattle.ip_spec.specs.Fits.{FitsPlaces};
ghost use Rattle.ip_spec.specs.Parse.{IsParsed};
ghost use Rattle.ip_spec.specs.Links.{first_number, linked, relinked};
ghost use Rattle.ip_ext_chains.specs.Ipv6Extensions.{placed_fields, value_of, final_of};

use crate::err::ipv6_exts::ExtsWalkError;
use crate::places::Place;
use crate::walk::Walk;
use crate::{Ipv6Extensions, Ipv6RoutingExtensions};
use ip_base::IpNumber;
use ip_base::ip_number::{AUTH, IPV6_DEST_OPTIONS, IPV6_FRAG, IPV6_HOP_BY_HOP, IPV6_ROUTE};
use ip_ext_headers::{IpAuthHeader, Ipv6FragmentHeader, Ipv6RawExtHeader};

impl Ipv6Extensions {
    /// Returns the number to which the headers lead along their next headers, if the first is of the number `first`
    /// and each is reached, otherwise the error of the walk. It is Ok if and only if some bytes parse as this value
    /// with nothing left.
    pub fn next_header(&self, first: IpNumber) -> Result<IpNumber, ExtsWalkError>
        ensures answer { IsWalkAnswer (placed_fields self.now) first.0 result }
        ensures exactly { (m : IpNumber) → (result ≡ Ok m) ↔ ((s : List ℕ)
            × IsParsed FitsPlaces (λ c. value_of c ≡ self.now) first.0 m.0 s) }
    {
        // Each header can be written, as the contract of this call says.
        let _ = self.header_len();
        let mut walk = Walk::new(self, first);
        // Headers linked in the order of the places, the usual case, are all reached here.
        let _ = walk.next_in(Place::HopByHop);
        let _ = walk.next_in(Place::Destination);
        let _ = walk.next_in(Place::Routing);
        let _ = walk.next_in(Place::Fragment);
        let _ = walk.next_in(Place::Authentication);
        let _ = walk.next_in(Place::FinalDestination);
        'headers: while let Some(_) = walk.next() {}
        walk.answer()
    }

    /// Links each header to the next one present, in the order of the places, and the last to `last`. Returns the
    /// number of the first, or `last` if there is none: a walk from there leads to `last`.
    pub fn set_next_headers(&mut self, last: IpNumber) -> IpNumber
        ensures links { (p : spec_place) → placed_fields self.new p ≡ linked (placed_fields self.old) last.0 p }
        ensures first { result.0 ≡ first_number (placed_fields self.old) places last.0 }
        ensures leads { IsWalkAnswer (placed_fields self.new) result.0 (Ok last) }
    {
        // Each header can be written, as the contract of this call says.
        let _ = self.header_len();
        let next = link_final(&mut self.routing, last);
        let next = link_auth(&mut self.auth, next);
        let next = link_fragment(&mut self.fragment, next);
        let next = link_routing(&mut self.routing, next);
        let next = link_raw(&mut self.destination_options, IPV6_DEST_OPTIONS, next);
        link_raw(&mut self.hop_by_hop_options, IPV6_HOP_BY_HOP, next)
    }
}

/// Links the header, if there is one, to `next`. Returns the number to which the headers before it lead.
#[inline(always)]
fn link_raw(header: &mut Option<Ipv6RawExtHeader>, number: IpNumber, next: IpNumber) -> IpNumber
    ensures linked { option_map raw_header header.new
        ≡ option_map (relinked next.0) (option_map raw_header header.old) }
    ensures number { result.0 ≡ (if is_some header.old then number.0 else next.0) }
{
    match header {
        Some(header) => {
            header.next_header = next;
            number
        }
        None => next,
    }
}

/// Links the destination options after a routing header, as `link_raw` does.
#[inline(always)]
fn link_final(headers: &mut Option<Ipv6RoutingExtensions>, next: IpNumber) -> IpNumber
    ensures linked { option_map raw_header (final_of headers.new)
        ≡ option_map (relinked next.0) (option_map raw_header (final_of headers.old)) }
    ensures routing { option_map (λ r. raw_header r.routing) headers.new
        ≡ option_map (λ r. raw_header r.routing) headers.old }
    ensures number { result.0
        ≡ (if is_some (final_of headers.old) then DESTINATION_OPTIONS else next.0) }
{
    match headers {
        Some(headers) => link_raw(
            &mut headers.final_destination_options,
            IPV6_DEST_OPTIONS,
            next,
        ),
        None => next,
    }
}

/// Links the routing header, as `link_raw` does.
#[inline(always)]
fn link_routing(headers: &mut Option<Ipv6RoutingExtensions>, next: IpNumber) -> IpNumber
    ensures linked { option_map (λ r. raw_header r.routing) headers.new
        ≡ option_map (relinked next.0) (option_map (λ r. raw_header r.routing) headers.old) }
    ensures final_destination { final_of headers.new ≡ final_of headers.old }
    ensures number { result.0 ≡ (if is_some headers.old then ROUTING else next.0) }
{
    match headers {
        Some(headers) => {
            headers.routing.next_header = next;
            IPV6_ROUTE
        }
        None => next,
    }
}

/// Links the fragment header, as `link_raw` does.
#[inline(always)]
fn link_fragment(header: &mut Option<Ipv6FragmentHeader>, next: IpNumber) -> IpNumber
    ensures linked { option_map fragment_header header.new
        ≡ option_map (relinked next.0) (option_map fragment_header header.old) }
    ensures number { result.0 ≡ (if is_some header.old then FRAGMENT else next.0) }
{
    match header {
        Some(header) => {
            header.next_header = next;
            IPV6_FRAG
        }
        None => next,
    }
}

/// Links the authentication header, as `link_raw` does.
#[inline(always)]
fn link_auth(header: &mut Option<IpAuthHeader>, next: IpNumber) -> IpNumber
    ensures linked { option_map auth_header header.new
        ≡ option_map (relinked next.0) (option_map auth_header header.old) }
    ensures number { result.0 ≡ (if is_some header.old then AUTHENTICATION else next.0) }
{
    match header {
        Some(header) => {
            header.next_header = next;
            AUTH
        }
        None => next,
    }
}
