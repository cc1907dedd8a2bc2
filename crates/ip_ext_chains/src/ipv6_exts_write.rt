//! Headers in six places written, in the order of a walk.
ghost use Rattle.std.specs.Prelude.{◌≡◌, ◌≤◌, ◌<◌, ◌↔◌, ◌+◌, ◌++◌, ℕ, List, None, Ok, Err, IsTrue, OnOk, vec_len, vec_capacity};
ghost use Rattle.ip_spec.specs.Header.{IsExtensionNumber};
ghost use Rattle.ip_spec.specs.Encoding.{AreBytes, cleared_chain};
ghost use Rattle.ip_spec.specs.Encodable.{IsEncodable, placed_len};
ghost use Rattle.ip_spec.specs.Chain.{ExtHeader, bytes_of};
ghost use Rattle.ip_spec.specs.Walk.{PlacedFields, IsSpelling, IsWalkAnswer};
ghost use Rattle.ip_spec.specs.Fits.{FitsPlaces};
ghost use Rattle.ip_spec.specs.Parse.{IsParsed};
ghost use Rattle.ip_spec.specs.Places.{Place as spec_place};
ghost use Rattle.ip_ext_chains.specs.Place.{as_place};
ghost use Rattle.ip_ext_chains.specs.Fitting.{fitting_chain, IsFittingAnswer};
ghost use Rattle.ip_ext_chains.specs.Ipv6Extensions.{placed_fields, value_of, exts_len};
ghost use Rattle.ip_ext_chains.specs.ExtsWalk.{left_in, left_from, IsAt, HasWritten, IsWalkWritten};
ghost use Rattle.ip_ext_chains.specs.declared.walk.Walk.{Walk as walk_value};
ghost use Rattle.ip_ext_chains.specs.Write.{IsWritten, IsWalkFault};
ghost use Rattle.ip_ext_chains.specs.declared.err.ipv6_exts.header_write_error.HeaderWriteError.TheVariants.{Io, Content};

use crate::Ipv6Extensions;
use crate::err::ipv6_exts::{ExtsWalkError, HeaderWriteError};
use crate::places::{Place, Places};
use crate::walk::Walk;
use ip_base::IpNumber;
use std::alloc::{AllocError, Allocator};

impl Ipv6Extensions {
    /// Appends the headers in the order of a walk from the number `first`, with their reserved bits zero. Unless
    /// memory runs out, the result is Ok if and only if that of `next_header` is. The bytes parse as this value, with
    /// nothing left; if they lead to a number that is not an extension header's, they do so whatever bytes follow.
    ///
    /// Memory is requested first. Returns `Io` if there are headers for which the vector has no room and can't grow;
    /// then nothing has been appended. Returns `Content` if a header isn't reached; then the headers that are reached
    /// have been appended.
    pub fn write<A: Allocator>(
        &self,
        out: &mut Vec<u8, A>,
        first: IpNumber,
    ) -> Result<(), HeaderWriteError>
        ensures ok { OnOk result (IsWritten self.now first.0 out.old.items out.new.items) }
        ensures len { OnOk result (vec_len out.new ≡ vec_len out.old + exts_len self.now) }
        ensures parsed_again { OnOk result ((b r : List ℕ) (m : IpNumber)
            → out.new.items ≡ out.old.items ++ b
            → IsWalkAnswer (placed_fields self.now) first.0 (Ok m) → (IsExtensionNumber m.0 → ⊥)
            → IsFittingAnswer first.0 (b ++ r) self.now m.0 r None) }
        ensures parsed_whole { OnOk result ((b : List ℕ) (m : IpNumber)
            → out.new.items ≡ out.old.items ++ b → IsWalkAnswer (placed_fields self.now) first.0 (Ok m)
            → IsParsed FitsPlaces (λ c. value_of c ≡ self.now) first.0 m.0 b) }
        ensures cleared { OnOk result ((s : List ℕ) → AreBytes s
            → value_of (fitting_chain first.0 s) ≡ self.now → out.new.items
            ≡ out.old.items ++ bytes_of (cleared_chain (fitting_chain first.0 s))) }
        ensures alike { OnOk result ((v : Ipv6Extensions) (c : List ExtHeader)
            → IsSpelling (placed_fields v) first.0 c
            → (out.new.items ≡ out.old.items ++ bytes_of c) ↔ (self.now ≡ v)) }
        ensures unchanged { (refused : AllocError) → result ≡ Err (Io refused)
            → out.new.items ≡ out.old.items }
        ensures content { (fault : ExtsWalkError) → result ≡ Err (Content fault)
            → IsWalkFault self.now first.0 out.old.items out.new.items fault }
        ensures full { (refused : AllocError) → result ≡ Err (Io refused)
            → vec_capacity out.old < vec_len out.old + exts_len self.now }
        ensures some { (refused : AllocError) → result ≡ Err (Io refused)
            → 0 < exts_len self.now }
        ensures capacity { vec_capacity out.old ≤ vec_capacity out.new }
    {
        if let Err(refused) = out.reserve(self.header_len()) {
            return Err(HeaderWriteError::Io(refused));
        }
        match self.append(first, out) {
            Ok(_) => Ok(()),
            Err(fault) => Err(HeaderWriteError::Content(fault)),
        }
    }

    /// Appends the headers in the order of a walk from the number `first`, and returns the result of the walk. The
    /// vector must have room for all headers.
    #[inline(always)]
    fn append<A: Allocator>(
        &self,
        first: IpNumber,
        out: &mut Vec<u8, A>,
    ) -> Result<IpNumber, ExtsWalkError>
        requires room { vec_len out.old + exts_len self.now ≤ vec_capacity out.old }
        requires encodable { IsEncodable (placed_fields self.now) }
        ensures written { IsWalkWritten (placed_fields self.now) first.0
            out.old.items out.new.items result }
        ensures capacity { vec_capacity out.old ≤ vec_capacity out.new }
    {
        let mut walk = Walk::new(self, first);
        // Headers linked in the order of the places, the usual case, are all reached here.
        if append_in_order(&mut walk, out) {
            return Ok(walk.number);
        }
        append_others(walk.headers, walk.reached, walk.number, walk.first, out)
    }
}

/// Appends the bytes of the headers that the walk reaches in the order of the places, up to the first header that isn't
/// next. Returns whether all headers are reached.
#[inline(always)]
fn append_in_order<A: Allocator>(walk: &mut Walk<'_>, out: &mut Vec<u8, A>) -> bool
    requires room { vec_len out.old + placed_len (left_in walk.old) ≤ vec_capacity out.old }
    ensures written { (v : PlacedFields) (f : ℕ) (before : List ℕ) → IsEncodable v
        → HasWritten v f walk.old before out.old.items
        → HasWritten v f walk.new before out.new.items }
    ensures whole { IsTrue result → (p : spec_place) → left_in walk.new p ≡ None }
    ensures room { vec_len out.new + placed_len (left_in walk.new) ≤ vec_capacity out.new }
    ensures capacity { vec_capacity out.old ≤ vec_capacity out.new }
{
    append_next(walk, Place::HopByHop, out)
        && append_next(walk, Place::Destination, out)
        && append_next(walk, Place::Routing, out)
        && append_next(walk, Place::Fragment, out)
        && append_next(walk, Place::Authentication, out)
        && append_next(walk, Place::FinalDestination, out)
}

/// Appends the bytes of the header in the place, if the walk reaches it next. Returns whether no header is left there.
#[inline(always)]
fn append_next<A: Allocator>(walk: &mut Walk<'_>, place: Place, out: &mut Vec<u8, A>) -> bool
    requires room { vec_len out.old + placed_len (left_in walk.old) ≤ vec_capacity out.old }
    ensures written { (v : PlacedFields) (f : ℕ) (before : List ℕ) → IsEncodable v
        → HasWritten v f walk.old before out.old.items
        → HasWritten v f walk.new before out.new.items }
    ensures here { IsTrue result → left_in walk.new (as_place place) ≡ None }
    ensures others { (p : spec_place) → left_in walk.old p ≡ None → left_in walk.new p ≡ None }
    ensures room { vec_len out.new + placed_len (left_in walk.new) ≤ vec_capacity out.new }
    ensures capacity { vec_capacity out.old ≤ vec_capacity out.new }
{
    if let Some(header) = walk.next_in(place) {
        header.append(out);
    }
    walk.left(place).is_none()
}

/// Appends the bytes of the headers that the walk reaches from this position, and returns its result. It is kept out of
/// line, and takes the walk apart, so that six places that are written aren't moved (docs/DECISIONS.md, "Moves of large
/// values").
#[inline(never)]
fn append_others<A: Allocator>(
    headers: &Ipv6Extensions,
    reached: Places<()>,
    number: IpNumber,
    first: bool,
    out: &mut Vec<u8, A>,
) -> Result<IpNumber, ExtsWalkError>
    requires room { vec_len out.old + placed_len (left_from headers.now reached)
        ≤ vec_capacity out.old }
    ensures written { (w : walk_value) → IsAt w headers.now reached number first
        → (v : PlacedFields) (f : ℕ) (before : List ℕ) → IsEncodable v
        → HasWritten v f w before out.old.items → IsWalkWritten v f before out.new.items result }
    ensures capacity { vec_capacity out.old ≤ vec_capacity out.new }
{
    let mut walk = Walk {
        headers,
        reached,
        number,
        first,
    };
    'headers: while let Some(header) = walk.next() {
        header.append(out);
    }
    walk.answer()
}
