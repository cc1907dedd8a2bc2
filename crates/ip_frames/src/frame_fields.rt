//! What was found in a frame as plain numbers, for C.
ghost use Rattle.std.specs.Prelude.{◌≡◌};
ghost use Rattle.ip_frames.specs.Fields.{frame_fields, end_code, needed_of, number_kind, number_value};

use crate::{FrameContents, FrameEnd, ProtocolNumber};

/// What the headers of a frame lead to, as `FrameContents`, in plain numbers.
#[repr(C)]
#[derive(Clone, Copy, Debug, PartialEq, Eq)]
pub struct FrameFields {
    /// The length in bytes of all headers.
    pub offset: usize,
    /// How many bytes a truncated header needs at least; 0 if none is truncated.
    pub needed: usize,
    /// How many VLAN tags there are.
    pub vlan_count: usize,
    /// The last number that says what the frame carries, or 0 if there is none.
    pub number: u32,
    /// The identifier of the first VLAN tag, or 0 if there is none.
    pub first_vlan: u16,
    /// The identifier of the second VLAN tag, or 0 if there is none.
    pub second_vlan: u16,
    /// The kind of the number: 0 if there is none, EtherType 1, LLC 2, PPP 3, NLPID 4, family 5, 802.11 6.
    pub number_kind: u8,
    /// The IP version that the number stands for, 4 or 6, or 0 if it stands for none.
    pub version: u8,
    /// What is after the headers: IP 0, anything else 1, a truncated header 2.
    pub end: u8,
}

impl FrameFields {
    /// Returns the fields of what was found in a frame.
    #[inline(always)]
    pub fn of(contents: FrameContents) -> FrameFields
        ensures { result ≡ frame_fields contents }
    {
        FrameFields {
            offset: contents.offset,
            needed: needed_of(contents.end),
            vlan_count: contents.vlans.count,
            number: number_value(contents.number),
            first_vlan: contents.vlans.first,
            second_vlan: contents.vlans.second,
            number_kind: number_kind(contents.number),
            version: contents.announced_version().unwrap_or(0),
            end: end_code(contents.end),
        }
    }
}

/// Returns the code of what is after the headers.
#[inline(always)]
fn end_code(end: FrameEnd) -> u8
    ensures { result ≡ end_code end }
{
    match end {
        FrameEnd::Ip => 0,
        FrameEnd::NotIp => 1,
        FrameEnd::Truncated { .. } => 2,
    }
}

/// Returns how many bytes a truncated header needs at least.
#[inline(always)]
fn needed_of(end: FrameEnd) -> usize
    ensures { result ≡ needed_of end }
{
    match end {
        FrameEnd::Truncated { needed } => needed,
        FrameEnd::Ip | FrameEnd::NotIp => 0,
    }
}

/// Returns the code of the kind of a number.
#[inline(always)]
fn number_kind(number: Option<ProtocolNumber>) -> u8
    ensures { result ≡ number_kind number }
{
    match number {
        None => 0,
        Some(ProtocolNumber::EtherType(_)) => 1,
        Some(ProtocolNumber::Llc(_)) => 2,
        Some(ProtocolNumber::Ppp(_)) => 3,
        Some(ProtocolNumber::Nlpid(_)) => 4,
        Some(ProtocolNumber::Family(_)) => 5,
        Some(ProtocolNumber::Ieee80211(_)) => 6,
    }
}

/// Returns a number without its kind.
#[inline(always)]
fn number_value(number: Option<ProtocolNumber>) -> u32
    ensures { result ≡ number_value number }
{
    match number {
        None => 0,
        Some(ProtocolNumber::EtherType(n) | ProtocolNumber::Ppp(n)) => u32::from(n),
        Some(ProtocolNumber::Llc(n) | ProtocolNumber::Nlpid(n)) => u32::from(n),
        Some(ProtocolNumber::Family(n)) => n,
        Some(ProtocolNumber::Ieee80211(n)) => u32::from(n),
    }
}
