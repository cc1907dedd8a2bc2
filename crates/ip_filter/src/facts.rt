//! What tests ask of a packet.
ghost use Rattle.std.specs.Prelude.{◌≡◌, ◌==◌, true};
ghost use Rattle.std.specs.List.{list_any};
ghost use Rattle.ip_dissect.specs.Dissection.{dissected};
ghost use Rattle.ip_dissect.specs.Summary.{is_plain};
ghost use Rattle.ip_filter.specs.Flags.{AreKnown, any_flag};
ghost use Rattle.ip_filter.specs.Facts.{number_after};
ghost use Rattle.ip_filter.specs.HeaderConditions.{meets_condition};
ghost use Rattle.ip_filter.specs.OptionTypes.{AreTypesOf};
ghost use Rattle.ip_filter.specs.Truth.{is_first_kind, is_later_kind, fault_kind, fault_in, is_truncated, is_in_layer};
ghost use Rattle.ip_filter.specs.Truth.{some_fragment};

use crate::FaultKind;
use crate::flags::{Flags, has_one_of, mask};
use crate::header_condition::{HeaderCondition, any_header};
use crate::layers::is_in_layer;
use crate::option_types::OptionTypes;
use ip_base::err::ip::{HeaderError, HeadersError, SliceError};
use ip_base::err::ipv6_exts;
use ip_base::{IpNumber, ip_number};
use ip_dissect::{BaseHeader, End, FragmentKind, Packet};

/// What tests ask of a packet: its parts, and its flags but for errors.
#[derive(Clone, Copy, Debug)]
pub(crate) struct Facts<'a> {
    pub(crate) packet: Packet<'a>,
    pub(crate) flags: Flags,
    pub ghost flags_are: { AreKnown (dissected packet.bytes.now) flags },
}

impl<'a> Facts<'a> {
    /// Returns whether the packet has one of the flags that the mask selects.
    #[inline(always)]
    pub(crate) fn has_one_of(&self, mask: u64) -> bool
        ensures { result ≡ any_flag 64 mask (dissected self.now.packet.bytes.now) }
    {
        has_one_of(&self.packet, self.flags, mask)
    }

    /// Returns whether headers end with an error in the layer with this code, or in one that it stands for.
    #[inline(never)]
    pub(crate) fn is_in_layer(&self, code: u64) -> bool
        ensures { result ≡ is_in_layer code (dissected self.now.packet.bytes.now).version
            (dissected self.now.packet.bytes.now).end }
    {
        is_in_layer(self.packet.summary.version, &self.packet.end(), code)
    }

    /// Returns whether an extension header meets the condition. Walks them again if there is one that can meet it.
    #[inline(always)]
    pub(crate) fn has_header(&self, condition: HeaderCondition) -> bool
        ensures { result ≡ list_any (meets_condition condition)
            (dissected self.now.packet.bytes.now).headers }
    {
        self.has_one_of(condition.mask())
            && any_header(
                first_number(self.packet.base),
                self.packet.extensions(),
                condition,
            )
    }

    /// Returns the types of the packet's options. Walks the extension headers again if some can have options.
    #[inline(never)]
    pub(crate) fn option_types(&self) -> OptionTypes
        ensures { AreTypesOf (dissected self.now.packet.bytes.now).headers result }
    {
        if self.has_one_of(mask::OPTIONS) {
            OptionTypes::of_headers(first_number(self.packet.base), self.packet.extensions())
        } else {
            OptionTypes::none()
        }
    }

    /// Returns whether the base header of an IPv4 packet has the identification, or a fragment header of an IPv6 packet.
    /// Walks the extension headers again if there are several.
    #[inline(always)]
    pub(crate) fn has_identification(&self, number: u64) -> bool
        ensures { result ≡ some_fragment (λ x. x.identification == number)
            (dissected self.now.packet.bytes.now) }
    {
        if self.packet.summary.header_count > 1 {
            return self.has_header(HeaderCondition::Identification(number));
        }
        match self.packet.summary.fragment {
            Some(fragment) => u64::from(fragment.identification) == number,
            None => false,
        }
    }
}

/// Returns the number after the base header, and 59 without one.
#[inline(always)]
fn first_number(base: Option<BaseHeader<'_>>) -> IpNumber
    ensures { result.0 ≡ number_after base.entry }
{
    match base {
        Some(BaseHeader::Ipv4(header)) => header.protocol(),
        Some(BaseHeader::Ipv6(header)) => header.next_header(),
        None => ip_number::IPV6_NO_NEXT_HEADER,
    }
}

/// Returns whether the end is a truncated header.
#[inline(always)]
pub(crate) fn is_truncated(end: &End) -> bool
    ensures { result ≡ is_truncated end.now }
{
    match end {
        End::Truncated { .. } => true,
        _ => false,
    }
}

/// Returns the kind of the fault at an end, if it is one.
#[inline(always)]
pub(crate) fn fault_in(end: &End) -> Option<FaultKind>
    ensures { result ≡ fault_in end.now }
{
    match end {
        End::Fault { error, .. } => Some(fault_kind(error)),
        _ => None,
    }
}

/// Returns the kind of a fault.
#[inline(always)]
fn fault_kind(error: &SliceError) -> FaultKind
    ensures { result ≡ fault_kind error.now }
{
    match error {
        SliceError::Len(_) => FaultKind::TooShort,
        SliceError::IpHeaders(HeadersError::Ip(HeaderError::UnsupportedIpVersion { .. })) => {
            FaultKind::UnsupportedIpVersion
        }
        SliceError::IpHeaders(
            HeadersError::Ip(HeaderError::Ipv4HeaderLengthSmallerThanHeader { .. }),
        ) => FaultKind::Ipv4HeaderLength,
        SliceError::IpHeaders(HeadersError::Ipv4Ext(_)) => FaultKind::ZeroPayloadLen,
        SliceError::IpHeaders(HeadersError::Ipv6Ext(ipv6_exts::HeaderError::HopByHopNotAtStart)) =>
            { FaultKind::HopByHopNotAtStart }
        SliceError::IpHeaders(HeadersError::Ipv6Ext(ipv6_exts::HeaderError::IpAuth(_))) => {
            FaultKind::ZeroPayloadLen
        }
    }
}

/// Returns whether the fragment is the first one.
#[inline(always)]
pub(crate) fn is_first_kind(kind: FragmentKind) -> bool
    ensures { result ≡ is_first_kind kind }
{
    match kind {
        FragmentKind::First => true,
        _ => false,
    }
}

/// Returns whether the fragment is a middle or the last one.
#[inline(always)]
pub(crate) fn is_later_kind(kind: FragmentKind) -> bool
    ensures { result ≡ is_later_kind kind }
{
    match kind {
        FragmentKind::Middle | FragmentKind::Last => true,
        _ => false,
    }
}
