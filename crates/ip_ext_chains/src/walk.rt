//! The walk along the next headers of headers in six places.
ghost use Rattle.std.specs.Prelude.{◌≡◌, ◌↔◌, true, false, IsTrue, Some, None, is_some, IfSome, IfNone};
ghost use Rattle.std.specs.List.{find};
ghost use Rattle.std.specs.Option.{option_map};
ghost use Rattle.ip_spec.specs.Walk.{answer_at};
ghost use Rattle.ip_spec.specs.WalkStep.{next_in_chain};
ghost use Rattle.ip_spec.specs.Places.{places, raw_header};
ghost use Rattle.ip_ext_chains.specs.Place.{as_place};
ghost use Rattle.ip_ext_chains.specs.Slots.{at, IsVacant};
ghost use Rattle.ip_ext_chains.specs.HeaderRef.{fields_of_ref};
ghost use Rattle.ip_ext_chains.specs.Ipv6Extensions.{placed_fields};
ghost use Rattle.ip_ext_chains.specs.ExtsWalk.{left_in, IsStep, IsStop};

use crate::Ipv6Extensions;
use crate::err::ipv6_exts::ExtsWalkError;
use crate::header_ref::HeaderRef;
use crate::places::{Place, Places};
use ip_base::{IpNumber, ip_number};
use ip_ext_headers::Ipv6RawExtHeader;

/// A walk. Each place that it reaches is marked, so that none is reached twice.
#[derive(Drop)]
pub(crate) struct Walk<'a> {
    pub(crate) headers: &'a Ipv6Extensions,
    pub(crate) reached: Places<()>,
    pub(crate) number: IpNumber,
    pub(crate) first: bool,
}

impl<'a> Walk<'a> {
    /// Returns the walk from the number, with no header reached.
    #[inline(always)]
    pub(crate) fn new(headers: &'a Ipv6Extensions, start: IpNumber) -> Walk<'a>
        ensures headers { result.headers.now ≡ headers.now }
        ensures number { result.number.0 ≡ start.0 }
        ensures first { result.first ≡ true }
        ensures reached { IsVacant result.reached }
    {
        Walk {
            headers,
            reached: Places::new(),
            number: start,
            first: true,
        }
    }

    /// Returns the next header. Hop-by-hop options are next only at the start.
    #[inline(always)]
    pub(crate) fn next(&mut self) -> Option<HeaderRef<'a>>
        ensures some { IfSome result (λ h. IsStep self.old self.new (fields_of_ref h)) }
        ensures none { IfNone result (IsStop self.old self.new) }
    {
        // Each arm makes its own call, so that its place and format are known at compile time.
        match self.reached.next_in_chain(self.first, self.number)? {
            Place::HopByHop => self.reach(Place::HopByHop),
            Place::Destination => self.reach(Place::Destination),
            Place::Routing => self.reach(Place::Routing),
            Place::Fragment => self.reach(Place::Fragment),
            Place::Authentication => self.reach(Place::Authentication),
            Place::FinalDestination => self.reach(Place::FinalDestination),
        }
    }

    /// Returns the next header, if it is in the place.
    #[inline(always)]
    pub(crate) fn next_in(&mut self, place: Place) -> Option<HeaderRef<'a>>
        ensures some { IfSome result (λ h. IsStep self.old self.new (fields_of_ref h)) }
        ensures none { IfNone result (self.new ≡ self.old) }
    {
        if !self.goes_on_in(place) {
            return None;
        }
        self.reach(place)
    }

    /// Returns whether the place is the one that a header of the number takes next.
    #[inline(always)]
    fn goes_on_in(&self, place: Place) -> bool
        ensures { IsTrue result ↔ (next_in_chain self.now.first (λ p. at p self.now.reached)
            self.now.number.0 ≡ Some (as_place place)) }
    {
        let is_own = match place {
            Place::HopByHop => self.first,
            Place::Destination => self.reached.get(Place::Routing).is_none(),
            Place::FinalDestination => self.reached.get(Place::Routing).is_some(),
            Place::Routing | Place::Fragment | Place::Authentication => true,
        };
        is_own && self.number == place.number() && self.reached.get(place).is_none()
    }

    /// Reaches the header in the place that is next, if there is one, and returns it.
    #[inline(always)]
    fn reach(&mut self, place: Place) -> Option<HeaderRef<'a>>
        requires own { next_in_chain self.old.first (λ p. at p self.old.reached) self.old.number.0
            ≡ Some (as_place place) }
        ensures some { IfSome result (λ h. IsStep self.old self.new (fields_of_ref h)) }
        ensures none { IfNone result (IsStop self.old self.new) }
        ensures same { IfNone result (self.new ≡ self.old) }
    {
        let header = header_in(self.headers, place)?;
        self.reached.put(place, ());
        self.first = false;
        self.number = header.next_header();
        Some(header)
    }

    /// Returns the header in the place, if it isn't reached yet.
    #[inline(always)]
    pub(crate) fn left(&self, place: Place) -> Option<HeaderRef<'a>>
        ensures { option_map fields_of_ref result ≡ left_in self.now (as_place place) }
    {
        if self.reached.get(place).is_some() {
            return None;
        }
        header_in(self.headers, place)
    }

    /// Returns the first place, in order, whose header isn't reached.
    #[inline(always)]
    fn first_left(&self) -> Option<Place>
        ensures { option_map as_place result ≡ find (λ p. is_some (left_in self.now p)) places }
    {
        if self.left(Place::HopByHop).is_some() {
            Some(Place::HopByHop)
        } else if self.left(Place::Destination).is_some() {
            Some(Place::Destination)
        } else if self.left(Place::Routing).is_some() {
            Some(Place::Routing)
        } else if self.left(Place::Fragment).is_some() {
            Some(Place::Fragment)
        } else if self.left(Place::Authentication).is_some() {
            Some(Place::Authentication)
        } else if self.left(Place::FinalDestination).is_some() {
            Some(Place::FinalDestination)
        } else {
            None
        }
    }

    /// Returns the number that was reached if no header is left, otherwise the error of the walk.
    #[inline(always)]
    pub(crate) fn answer(&self) -> Result<IpNumber, ExtsWalkError>
        ensures { result ≡ answer_at self.now.number.0 (left_in self.now) }
    {
        match self.first_left() {
            None => Ok(self.number),
            Some(_)
                if self.number == ip_number::IPV6_HOP_BY_HOP
                    && self.left(Place::HopByHop).is_some() => {
                Err(ExtsWalkError::HopByHopNotAtStart)
            }
            Some(place) => Err(ExtsWalkError::ExtNotReferenced {
                missing_ext: place.number(),
            }),
        }
    }
}

/// Returns the header in the place.
#[inline(always)]
fn header_in(headers: &Ipv6Extensions, place: Place) -> Option<HeaderRef<'_>>
    ensures { option_map fields_of_ref result ≡ placed_fields headers.now (as_place place) }
{
    match place {
        Place::HopByHop => raw_ref(&headers.hop_by_hop_options),
        Place::Destination => raw_ref(&headers.destination_options),
        Place::Routing => match &headers.routing {
            Some(routing) => Some(HeaderRef::Raw(&routing.routing)),
            None => None,
        },
        Place::Fragment => match &headers.fragment {
            Some(header) => Some(HeaderRef::Fragment(header)),
            None => None,
        },
        Place::Authentication => match &headers.auth {
            Some(header) => Some(HeaderRef::Authentication(header)),
            None => None,
        },
        Place::FinalDestination => match &headers.routing {
            Some(routing) => raw_ref(&routing.final_destination_options),
            None => None,
        },
    }
}

#[inline(always)]
fn raw_ref(header: &Option<Ipv6RawExtHeader>) -> Option<HeaderRef<'_>>
    ensures { option_map fields_of_ref result ≡ option_map raw_header header.now }
{
    match header {
        Some(header) => Some(HeaderRef::Raw(header)),
        None => None,
    }
}
