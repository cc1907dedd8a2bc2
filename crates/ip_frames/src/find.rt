//! The IP packet in a frame.
ghost use Rattle.std.specs.Prelude.{◌≡◌, ◌≤◌, length, Some, None, IfSome, IsSomeAnd, MatchOption, IsTrue, is_some};
ghost use Rattle.ip_frames.specs.LinkTypes.{first_header};
ghost use Rattle.ip_frames.specs.Numbers.{after_ethertype};
ghost use Rattle.ip_frames.specs.Headers.{LeadsTo};
ghost use Rattle.ip_frames.specs.Fields.{LeadsToFields};
ghost use Rattle.ip_frames.specs.declared.header.HeaderKind.TheVariants.{Ethernet};
ghost use Rattle.ip_frames.specs.declared.header.Announced.TheVariants.{Header};
ghost use Rattle.ip_frames.specs.declared.protocol_number.ProtocolNumber.TheVariants.{EtherType};

use crate::protocol_number::after_ethertype;
use crate::read::reading;
use crate::{
    Announced, FrameContents, FrameEnd, FrameFields, HeaderKind, HeaderReading, ProtocolNumber,
    VlanTags, first_header,
};

/// The link type of Ethernet.
const ETHERNET: u32 = 1;

/// Finds the IP packet in a frame of a link type, or what the frame carries instead, or where it is truncated. Returns `None`
/// if the link type, a LINKTYPE_ or DLT_ value, isn't supported.
#[inline(always)]
pub fn find_ip(link_type: u32, frame: &[u8]) -> Option<FrameContents>
    ensures found { MatchOption (first_header link_type) (result ≡ None) (λ first.
        IsSomeAnd result (λ x. LeadsTo first None frame.now x)) }
    ensures within { IfSome result (λ x. x.offset ≤ length frame.now) }
{
    // a test of the link type and one of the EtherType save the walk over the headers
    if link_type == ETHERNET {
        if let Some(contents) = plain_ethernet(frame) {
            return Some(contents);
        }
    }
    match first_header(link_type) {
        Some(first) => Some(follow(first, None, frame)),
        None => None,
    }
}

/// Stores the fields of what `find_ip` finds in `found`. Returns whether the link type is supported; if it isn't, nothing is
/// stored.
#[inline(always)]
pub fn store_ip(link_type: u32, frame: &[u8], found: &mut FrameFields) -> bool
    ensures supported { result ≡ is_some (first_header link_type) }
    ensures found { MatchOption (first_header link_type) (found.new ≡ found.old)
        (λ first. LeadsToFields first None frame.now found.new) }
    ensures within { IsTrue result → found.new.offset ≤ length frame.now }
{
    // stores known fields, without the conversion of those of the walk
    if link_type == ETHERNET {
        if let Some(contents) = plain_ethernet(frame) {
            *found = FrameFields::of(contents);
            return true;
        }
    }
    store_followed(link_type, frame, found)
}

/// Stores the fields of what the headers of a frame lead to, as `store_ip` does.
#[inline(never)]
fn store_followed(link_type: u32, frame: &[u8], found: &mut FrameFields) -> bool
    ensures supported { result ≡ is_some (first_header link_type) }
    ensures found { MatchOption (first_header link_type) (found.new ≡ found.old)
        (λ first. LeadsToFields first None frame.now found.new) }
    ensures within { IsTrue result → found.new.offset ≤ length frame.now }
{
    match first_header(link_type) {
        Some(first) => {
            *found = FrameFields::of(follow(first, None, frame));
            true
        }
        None => false,
    }
}

/// Finds the IP packet in the bytes after an EtherType, as `find_ip` does in a frame.
pub fn find_ip_after(ethertype: u16, bytes: &[u8]) -> FrameContents
    ensures found { LeadsTo (after_ethertype ethertype) (Some (EtherType ethertype)) bytes.now result }
    ensures within { result.offset ≤ length bytes.now }
{
    follow(
        after_ethertype(ethertype),
        Some(ProtocolNumber::EtherType(ethertype)),
        bytes,
    )
}

/// Returns what an Ethernet frame carries, if that is IP directly after the Ethernet header.
#[inline(always)]
fn plain_ethernet(frame: &[u8]) -> Option<FrameContents>
    ensures found { IfSome result (λ x. LeadsTo (Header Ethernet) None frame.now x) }
    ensures within { IfSome result (λ x. x.offset ≤ length frame.now) }
{
    if frame.len() < 14 {
        return None;
    }
    let number = u16::from_be_bytes([frame[12], frame[13]]);
    if number != 0x0800 && number != 0x86dd {
        return None;
    }
    Some(FrameContents {
        offset: 14,
        end: FrameEnd::Ip,
        number: Some(ProtocolNumber::EtherType(number)),
        vlans: VlanTags::NONE,
    })
}

/// Returns what the headers lead to that `bytes` begin with.
#[inline(never)]
fn follow(first: Announced, before: Option<ProtocolNumber>, bytes: &[u8]) -> FrameContents
    ensures found { LeadsTo first before bytes.now result }
    ensures within { result.offset ≤ length bytes.now }
{
    let mut announced = first;
    let mut number = before;
    let mut vlans = VlanTags::NONE;
    let mut offset = 0;
    'headers: loop {
        match reading(announced, &bytes[offset..]) {
            HeaderReading::Whole(header) => {
                announced = header.announced;
                number = header.number.or(number);
                vlans = vlans.with(header.vlan);
                offset += header.len;
            }
            HeaderReading::End(end, found) => {
                return FrameContents {
                    offset,
                    end,
                    number: found.or(number),
                    vlans,
                };
            }
        }
    }
}
