//! The flags of a packet.
ghost use Rattle.std.specs.Prelude.{◌≡◌, ◌<◌, ◌+◌, ◌==◌, ◌&&◌, ◌||◌, ℕ, List, [], false};
ghost use Rattle.std.specs.Int.{bit_at};
ghost use Rattle.std.specs.Option.{option_map_or};
ghost use Rattle.ip_spec.specs.Header.{IsHeader};
ghost use Rattle.ip_dissect.specs.Dissection.{DissectedParts, dissected};
ghost use Rattle.ip_filter.specs.Truth.{is_first_kind, is_later_kind, says_fragment, is_truncated, fault_in, kind_index};
ghost use Rattle.ip_filter.specs.Flags.{AreKnown, any_flag, base_fragment};

use crate::FaultKind;
use crate::facts::{fault_in, is_first_kind, is_later_kind, is_truncated};
use crate::holds::kind_index;
use ip_base::{IpNumber, ip_number};
use ip_dissect::{End, Fragment, HeaderVisitor, Packet, Summary};
use ip_ext_headers::Ipv6FragmentHeaderSlice;

/// The places of flags. That of an extension header is its number.
pub(crate) mod place {
    pub const IPV4: u8 = 4;

    pub const IPV6: u8 = 6;

    pub const FIRST_FRAGMENT: u8 = 8;

    pub const LATER_FRAGMENT: u8 = 9;

    pub const INCOMPLETE: u8 = 10;

    pub const TRUNCATED: u8 = 11;

    /// The first kind of fault; the others follow.
    pub const FAULT: u8 = 12;
}

/// Masks of flags.
pub(crate) mod mask {
    use super::place;
    use ip_base::ip_number;

    pub const IPV4: u64 = 1 << place::IPV4;

    pub const IPV6: u64 = 1 << place::IPV6;

    pub const FIRST_FRAGMENT: u64 = 1 << place::FIRST_FRAGMENT;

    pub const LATER_FRAGMENT: u64 = 1 << place::LATER_FRAGMENT;

    pub const INCOMPLETE: u64 = 1 << place::INCOMPLETE;

    pub const TRUNCATED: u64 = 1 << place::TRUNCATED;

    pub const ROUTING: u64 = 1 << ip_number::IPV6_ROUTE.0;

    pub const FRAGMENT: u64 = 1 << ip_number::IPV6_FRAG.0;

    pub const OPTIONS: u64 = 1 << ip_number::IPV6_HOP_BY_HOP.0
        | 1 << ip_number::IPV6_DEST_OPTIONS.0;

    pub const AUTHENTICATION: u64 = 1 << ip_number::AUTH.0;

    /// All kinds of faults.
    pub const FAULTS: u64 = 0b11111 << place::FAULT;

    /// What only the error at the end of the headers says.
    pub const ERRORS: u64 = TRUNCATED | FAULTS;
}

/// What is known of a packet, each at its own place.
#[derive(Clone, Copy, Debug)]
pub(crate) struct Flags {
    bits: u64,
}

impl Flags {
    ghost use Rattle.ip_filter.specs.Flags.{AreFlags, AreOfHeaders};

    /// Returns the flags of no headers.
    #[inline(always)]
    pub(crate) fn none() -> Flags
        ensures { AreOfHeaders [] result }
    {
        Flags { bits: 0 }
    }

    /// Returns these flags of a packet's extension headers, and the packet's other flags, but for errors.
    #[inline(always)]
    pub(crate) fn of(self, packet: &Packet<'_>) -> Flags
        requires { AreOfHeaders (dissected packet.now.bytes.now).headers self }
        ensures { AreKnown (dissected packet.now.bytes.now) result }
    {
        let summary = &packet.summary;
        self.with(place::IPV4, summary.version == 4)
            .with(place::IPV6, summary.version == 6)
            .with_fragment(base_fragment(summary))
            .with(place::INCOMPLETE, summary.missing != 0)
    }

    /// Returns these flags of a packet, and those of the end of its headers.
    #[inline(always)]
    pub(crate) fn with_end(self, end: &End) -> Flags
        ensures { (m : ℕ) (p : DissectedParts) → end.now ≡ p.end → AreKnown p self → AreFlags m p result }
    {
        self.with(place::TRUNCATED, is_truncated(end))
            .with_fault(fault_in(end))
    }

    /// Returns whether one of the flags is set that the mask selects.
    #[inline(always)]
    pub(crate) fn has_one_of(&self, mask: u64) -> bool
        ensures { (p : DissectedParts) → AreFlags mask p self.now → result ≡ any_flag 64 mask p }
    {
        self.bits & mask != 0
    }

    /// Returns the flags and another one, if it is set.
    #[inline(always)]
    fn with(self, place: u8, is_set: bool) -> Flags
        requires { place < 64 }
        ensures { (n : ℕ) → n < 64 → (bit_at result.bits n == 1)
            ≡ ((bit_at self.bits n == 1) || ((n == place) && is_set)) }
    {
        Flags {
            bits: self.bits | (u64::from(is_set) << place),
        }
    }

    /// Returns the flags and that of the fragment, if it is a part of a packet.
    #[inline(always)]
    fn with_fragment(self, fragment: Option<Fragment>) -> Flags
        ensures { (n : ℕ) → n < 64 → (bit_at result.bits n == 1) ≡ ((bit_at self.bits n == 1)
            || ((n == 8) && option_map_or (λ x. is_first_kind x.kind) fragment false)
            || ((n == 9) && option_map_or (λ x. is_later_kind x.kind) fragment false)) }
    {
        match fragment {
            Some(fragment) => self
                .with(place::FIRST_FRAGMENT, is_first_kind(fragment.kind))
                .with(place::LATER_FRAGMENT, is_later_kind(fragment.kind)),
            None => self,
        }
    }

    /// Returns the flags and that of the kind of fault, if there is one.
    #[inline(always)]
    fn with_fault(self, fault: Option<FaultKind>) -> Flags
        ensures { (n : ℕ) → n < 64 → (bit_at result.bits n == 1) ≡ ((bit_at self.bits n == 1)
            || option_map_or (λ k. n == 12 + kind_index k) fault false) }
    {
        match fault {
            Some(kind) => self.with(place::FAULT + kind_index(kind), true),
            None => self,
        }
    }
}

/// Returns whether a packet with these flags, and those of its error, has one that the mask selects. The error is only made if
/// it is asked for, from where the walk stopped, so the packet's parts need not be stored.
#[inline(always)]
pub(crate) fn has_one_of(packet: &Packet<'_>, flags: Flags, mask: u64) -> bool
    requires { AreKnown (dissected packet.now.bytes.now) flags }
    ensures { result ≡ any_flag 64 mask (dissected packet.now.bytes.now) }
{
    if packet.summary.has_error && mask & mask::ERRORS != 0 {
        return flags.with_end(&packet.end()).has_one_of(mask);
    }
    flags.has_one_of(mask)
}

impl HeaderVisitor for Flags {
    ghost use Rattle.ip_filter.specs.Flags.{AreOfHeaders};

    ghost visited = { λ old k c new. AreOfHeaders [] old → AreOfHeaders c new };

    ghost none = { λ v k e. e };

    #[inline(always)]
    fn visit(&mut self, number: IpNumber, header: &[u8], _index: usize, _offset: usize) {
        let (is_first, is_later) = kinds_in(number, header);
        *self = self
            .with(number.0, true)
            .with(place::FIRST_FRAGMENT, is_first)
            .with(place::LATER_FRAGMENT, is_later);
    }
}

/// Returns which fragment an IPv4 packet is by its base header.
#[inline(always)]
fn base_fragment(summary: &Summary) -> Option<Fragment>
    ensures { result ≡ base_fragment summary.now }
{
    match summary.fragment {
        Some(fragment) if summary.version == 4 => Some(fragment),
        _ => None,
    }
}

/// Returns whether a header is a fragment header of a first one, and of a later one.
#[inline(always)]
fn kinds_in(number: IpNumber, header: &[u8]) -> (bool, bool)
    requires { IsHeader number.0 header.now }
    ensures first { result.0 ≡ says_fragment (λ x. is_first_kind x.kind)
        (record { number = number.0; bytes = header.now }) }
    ensures later { result.1 ≡ says_fragment (λ x. is_later_kind x.kind)
        (record { number = number.0; bytes = header.now }) }
{
    if number != ip_number::IPV6_FRAG {
        return (false, false);
    }
    match Ipv6FragmentHeaderSlice::from_slice(header) {
        Ok(header) => {
            let is_later = header.fragment_offset().value() != 0;
            (!is_later && header.more_fragments(), is_later)
        }
        Err(_) => (false, false),
    }
}
