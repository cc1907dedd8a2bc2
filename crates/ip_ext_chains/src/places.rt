//! The six places for the headers of an IPv6 chain (RFC 8200, section 4.1).
ghost use Rattle.std.specs.Prelude.{◌≡◌, ◌↔◌, ◌==◌, ◌∷◌, false, IsTrue, None, IfSome, if◌then◌else◌};
ghost use Rattle.std.specs.List.{find};
ghost use Rattle.std.specs.Option.{option_map, option_map_or};
ghost use Rattle.ip_spec.specs.Header.{IsRawNumber, IsLaterNumber};
ghost use Rattle.ip_spec.specs.Fields.{raw_fields, auth_fields, is_fragmenting};
ghost use Rattle.ip_spec.specs.Places.{next_place, places, index, number_in, fragment, authentication, final_destination};
ghost use Rattle.ip_spec.specs.WalkStep.{next_in_chain};
ghost use Rattle.ip_ext_chains.specs.Place.{as_place};

use crate::Ipv6ExtensionSlice;
use ip_base::{IpNumber, ip_number};
use ip_ext_headers::{IpAuthHeaderSlice, Ipv6FragmentHeaderSlice, Ipv6RawExtHeaderSlice};

/// A place for a header.
#[derive(Clone, Copy)]
pub(crate) enum Place {
    HopByHop,
    Destination,
    Routing,
    Fragment,
    Authentication,
    FinalDestination,
}

impl Place {
    /// Returns the place of a header of the number, after a routing header or not.
    #[inline(always)]
    pub(crate) fn of(number: IpNumber, past_routing: bool) -> Option<Place>
        ensures { option_map as_place result ≡ find (λ p. number_in p == number.0)
            (if past_routing then final_destination ∷ places else places) }
    {
        match number {
            ip_number::IPV6_HOP_BY_HOP => Some(Place::HopByHop),
            ip_number::IPV6_ROUTE => Some(Place::Routing),
            ip_number::IPV6_DEST_OPTIONS if past_routing => Some(Place::FinalDestination),
            ip_number::IPV6_DEST_OPTIONS => Some(Place::Destination),
            ip_number::IPV6_FRAG => Some(Place::Fragment),
            ip_number::AUTH => Some(Place::Authentication),
            _ => None,
        }
    }

    /// Returns the number of the place's headers.
    #[inline(always)]
    pub(crate) fn number(self) -> IpNumber
        ensures { result.0 ≡ number_in (as_place self) }
    {
        match self {
            Place::HopByHop => ip_number::IPV6_HOP_BY_HOP,
            Place::Destination | Place::FinalDestination => ip_number::IPV6_DEST_OPTIONS,
            Place::Routing => ip_number::IPV6_ROUTE,
            Place::Fragment => ip_number::IPV6_FRAG,
            Place::Authentication => ip_number::AUTH,
        }
    }

    /// Returns the place's index.
    #[inline(always)]
    fn index(self) -> usize
        ensures { result ≡ index (as_place self) }
    {
        self as usize
    }
}

/// A value, or nothing, in each place.
#[derive(Drop)]
pub(crate) struct Places<T> {
    slots: [Option<T>; 6],
}

impl<T: Drop> Places<T> {
    ghost use Rattle.ip_ext_chains.specs.Slots.{at, IsVacant, IsPut};

    /// Returns places that are all free.
    #[inline(always)]
    pub(crate) fn new() -> Places<T>
        ensures { IsVacant result }
    {
        Places {
            slots: [None, None, None, None, None, None],
        }
    }

    /// Returns the value in the place.
    #[inline(always)]
    pub(crate) fn get(&self, place: Place) -> Option<&T>
        ensures { option_map (λ x. x.now) result ≡ at (as_place place) self.now }
    {
        self.slots[place.index()].as_ref()
    }

    /// Returns the place that a header of the number takes next, if it is free.
    #[inline(always)]
    pub(crate) fn next_place(&self, number: IpNumber) -> Option<Place>
        ensures { option_map as_place result ≡ next_place (λ p. at p self.now) number.0 }
    {
        let place = Place::of(number, self.get(Place::Routing).is_some())?;
        if self.get(place).is_some() {
            return None;
        }
        Some(place)
    }

    /// Returns the place that a header of the number takes next in a chain, if it is free. Hop-by-hop options have one
    /// only at the start.
    #[inline(always)]
    pub(crate) fn next_in_chain(&self, is_first: bool, number: IpNumber) -> Option<Place>
        ensures { option_map as_place result ≡ next_in_chain is_first (λ p. at p self.now) number.0 }
    {
        if number == ip_number::IPV6_HOP_BY_HOP && !is_first {
            return None;
        }
        self.next_place(number)
    }

    /// Returns whether the number is that of a later header, and its place is occupied.
    #[inline(always)]
    pub(crate) fn is_occupied(&self, number: IpNumber) -> bool
        ensures { IsTrue result
            ↔ (IsLaterNumber number.0 × (next_place (λ p. at p self.now) number.0 ≡ None)) }
    {
        let is_later = matches!(
            number,
            ip_number::IPV6_ROUTE
                | ip_number::IPV6_FRAG
                | ip_number::AUTH
                | ip_number::IPV6_DEST_OPTIONS
        );
        is_later && self.next_place(number).is_none()
    }

    /// Stores a value in the place.
    #[inline(always)]
    pub(crate) fn put(&mut self, place: Place, value: T)
        ensures { IsPut (as_place place) value self.old self.new }
    {
        self.slots[place.index()] = Some(value);
    }
}

impl<'a> Places<Ipv6ExtensionSlice<'a>> {
    ghost use Rattle.ip_ext_headers.specs.Ipv6RawExtHeaderSlice as raw_slice;
    ghost use Rattle.ip_ext_headers.specs.Ipv6FragmentHeaderSlice as fragment_slice;
    ghost use Rattle.ip_ext_headers.specs.IpAuthHeaderSlice as auth_slice;
    ghost use Rattle.ip_ext_chains.specs.Slots.{at, raw_at, AreOfNumber};
    ghost use Rattle.ip_ext_slices.specs.Ipv6ExtensionSlice.{header_of};

    /// Returns the header in a place of the uniform format (RFC 6564).
    #[inline(always)]
    pub(crate) fn raw(&self, place: Place) -> Option<&Ipv6RawExtHeaderSlice<'a>>
        requires common { IsRawNumber (number_in (as_place place)) }
        requires numbers { AreOfNumber self.now }
        ensures { option_map (λ h. raw_fields (raw_slice.bytes h.now)) result
            ≡ raw_at (as_place place) self.now }
    {
        match self.get(place) {
            Some(
                Ipv6ExtensionSlice::HopByHop(header)
                | Ipv6ExtensionSlice::Routing(header)
                | Ipv6ExtensionSlice::DestinationOptions(header),
            ) => Some(header),
            _ => None,
        }
    }

    /// Returns the fragment header.
    #[inline(always)]
    pub(crate) fn fragment(&self) -> Option<&Ipv6FragmentHeaderSlice<'a>>
        requires number { IfSome (at fragment self.now)
            (λ h. (header_of h).number ≡ number_in fragment) }
        ensures { option_map (λ h. fragment_slice.bytes h.now) result
            ≡ option_map (λ h. (header_of h).bytes) (at fragment self.now) }
    {
        match self.get(Place::Fragment) {
            Some(Ipv6ExtensionSlice::Fragment(header)) => Some(header),
            _ => None,
        }
    }

    /// Returns whether a fragment header is present and fragments the payload.
    #[inline(always)]
    pub(crate) fn is_fragmenting_payload(&self) -> bool
        requires number { IfSome (at fragment self.now)
            (λ h. (header_of h).number ≡ number_in fragment) }
        ensures { result ≡ option_map_or (λ h. is_fragmenting (header_of h).bytes)
            (at fragment self.now) false }
    {
        match self.fragment() {
            Some(header) => header.is_fragmenting_payload(),
            None => false,
        }
    }

    /// Returns the authentication header.
    #[inline(always)]
    pub(crate) fn auth(&self) -> Option<&IpAuthHeaderSlice<'a>>
        requires number { IfSome (at authentication self.now)
            (λ h. (header_of h).number ≡ number_in authentication) }
        ensures { option_map (λ h. auth_fields (auth_slice.bytes h.now)) result
            ≡ option_map (λ h. auth_fields (header_of h).bytes) (at authentication self.now) }
    {
        match self.get(Place::Authentication) {
            Some(Ipv6ExtensionSlice::Authentication(header)) => Some(header),
            _ => None,
        }
    }
}
