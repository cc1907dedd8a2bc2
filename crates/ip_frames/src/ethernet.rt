//! Headers of IEEE 802, and those that EtherTypes announce.
ghost use Rattle.std.specs.Prelude.{◌≡◌, ◌≤◌};
ghost use Rattle.ip_frames.specs.Ieee.{type_in, after_type_or_length, ethernet, vlan_tag, access_point, llc, snap, token_ring, fddi, ipoib, after_security_tag, macsec, after_nsh, nsh, mpls, pppoe};

use crate::header::{header, not_ip, truncated, typed};
use crate::protocol_number::after_ethertype;
use crate::{Announced, FrameEnd, FrameHeader, HeaderKind, HeaderReading, ProtocolNumber};

/// The largest length of an LLC frame in the field that otherwise has an EtherType.
const MAX_LENGTH: u16 = 1500;

/// Returns the EtherType in a field, unless it is a length.
#[inline(always)]
fn type_in(number: u16) -> Option<ProtocolNumber>
    ensures { result ≡ type_in number }
{
    if number <= MAX_LENGTH {
        None
    } else {
        Some(ProtocolNumber::EtherType(number))
    }
}

/// Returns what follows a field that has an EtherType or a length.
#[inline(always)]
fn after_type_or_length(number: u16) -> Announced
    ensures { result ≡ after_type_or_length number }
{
    if number <= MAX_LENGTH {
        Announced::Header(HeaderKind::Llc)
    } else {
        after_ethertype(number)
    }
}

/// Returns the Ethernet header at the start of `bytes`.
#[inline(always)]
pub(crate) fn ethernet(bytes: &[u8]) -> HeaderReading
    ensures { result ≡ ethernet bytes.now }
{
    if bytes.len() < 14 {
        return truncated(14);
    }
    let number = u16::from_be_bytes([bytes[12], bytes[13]]);
    header(
        HeaderKind::Ethernet,
        14,
        type_in(number),
        after_type_or_length(number),
    )
}

/// Returns the VLAN tag at the start of `bytes`.
pub(crate) fn vlan_tag(bytes: &[u8]) -> HeaderReading
    ensures { result ≡ vlan_tag bytes.now }
{
    if bytes.len() < 4 {
        return truncated(4);
    }
    let number = u16::from_be_bytes([bytes[2], bytes[3]]);
    HeaderReading::Whole(FrameHeader {
        kind: HeaderKind::VlanTag,
        len: 4,
        number: type_in(number),
        vlan: Some(u16::from_be_bytes([bytes[0], bytes[1]]) & 0xfff),
        announced: after_type_or_length(number),
    })
}

/// Returns the destination service access point at the start of `bytes`, if it is there.
fn access_point(bytes: &[u8]) -> Option<ProtocolNumber>
    ensures { result ≡ access_point bytes.now }
{
    if bytes.is_empty() {
        None
    } else {
        Some(ProtocolNumber::Llc(bytes[0]))
    }
}

/// Returns the LLC header at the start of `bytes`, if it is that of SNAP.
pub(crate) fn llc(bytes: &[u8]) -> HeaderReading
    ensures { result ≡ llc bytes.now }
{
    let number = access_point(bytes);
    if bytes.len() < 3 {
        return HeaderReading::End(FrameEnd::Truncated { needed: 3 }, number);
    }
    if bytes[0] == 0xaa && bytes[1] == 0xaa && bytes[2] == 3 {
        header(
            HeaderKind::Llc,
            3,
            number,
            Announced::Header(HeaderKind::Snap),
        )
    } else {
        HeaderReading::End(FrameEnd::NotIp, number)
    }
}

/// Returns the SNAP header at the start of `bytes`, if it has an EtherType.
pub(crate) fn snap(bytes: &[u8]) -> HeaderReading
    ensures { result ≡ snap bytes.now }
{
    if bytes.len() < 5 {
        return truncated(5);
    }
    if bytes[0] == 0 && bytes[1] == 0 && bytes[2] == 0 {
        typed(
            HeaderKind::Snap,
            5,
            u16::from_be_bytes([bytes[3], bytes[4]]),
        )
    } else {
        not_ip()
    }
}

/// Returns the Token Ring header at the start of `bytes`.
pub(crate) fn token_ring(bytes: &[u8]) -> HeaderReading
    ensures { result ≡ token_ring bytes.now }
{
    if bytes.len() < 14 {
        return truncated(14);
    }
    if bytes[1] & 0xc0 != 0x40 {
        return header(HeaderKind::TokenRing, 14, None, Announced::Other);
    }
    if bytes[8] & 0x80 == 0 {
        return header(
            HeaderKind::TokenRing,
            14,
            None,
            Announced::Header(HeaderKind::Llc),
        );
    }
    if bytes.len() < 15 {
        return truncated(15);
    }
    let routed_len = 14 + usize::from(bytes[14] & 0x1f);
    if bytes.len() < routed_len {
        return truncated(routed_len);
    }
    header(
        HeaderKind::TokenRing,
        routed_len,
        None,
        Announced::Header(HeaderKind::Llc),
    )
}

/// Returns the FDDI header at the start of `bytes`.
pub(crate) fn fddi(bytes: &[u8]) -> HeaderReading
    ensures { result ≡ fddi bytes.now }
{
    if bytes.len() < 13 {
        return truncated(13);
    }
    let announced = if bytes[0] & 0xf0 == 0x50 {
        Announced::Header(HeaderKind::Llc)
    } else {
        Announced::Other
    };
    header(HeaderKind::Fddi, 13, None, announced)
}

/// Returns the header of IP over InfiniBand at the start of `bytes`.
pub(crate) fn ipoib(bytes: &[u8]) -> HeaderReading
    ensures { result ≡ ipoib bytes.now }
{
    if bytes.len() < 44 {
        return truncated(44);
    }
    typed(
        HeaderKind::Ipoib,
        44,
        u16::from_be_bytes([bytes[40], bytes[41]]),
    )
}

/// Returns a security tag of `len` bytes and the type or length after it.
fn after_security_tag(len: usize, bytes: &[u8]) -> HeaderReading
    requires { len ≤ 14 }
    ensures { result ≡ after_security_tag len bytes.now }
{
    if bytes.len() < len + 2 {
        return truncated(len + 2);
    }
    let number = u16::from_be_bytes([bytes[len], bytes[len + 1]]);
    header(
        HeaderKind::MacSec,
        len + 2,
        type_in(number),
        after_type_or_length(number),
    )
}

/// Returns the security tag at the start of `bytes`, if what follows it isn't encrypted.
pub(crate) fn macsec(bytes: &[u8]) -> HeaderReading
    ensures { result ≡ macsec bytes.now }
{
    if bytes.len() < 6 {
        return truncated(6);
    }
    if bytes[0] & 0x8c != 0 {
        return not_ip();
    }
    if bytes[0] & 0x20 != 0 {
        after_security_tag(14, bytes)
    } else {
        after_security_tag(6, bytes)
    }
}

/// Returns what follows a network service header.
fn after_nsh(next_protocol: u8) -> Announced
    ensures { result ≡ after_nsh next_protocol }
{
    match next_protocol {
        1 | 2 => Announced::IpByVersion,
        3 => Announced::Header(HeaderKind::Ethernet),
        4 => Announced::Header(HeaderKind::Nsh),
        5 => Announced::Header(HeaderKind::Mpls),
        _ => Announced::Other,
    }
}

/// Returns the network service header at the start of `bytes`.
pub(crate) fn nsh(bytes: &[u8]) -> HeaderReading
    ensures { result ≡ nsh bytes.now }
{
    if bytes.len() < 8 {
        return truncated(8);
    }
    let len = 4 * usize::from(bytes[1] & 0x3f);
    if bytes[0] & 0xe0 != 0 || len < 8 {
        return not_ip();
    }
    if bytes.len() < len {
        return truncated(len);
    }
    header(HeaderKind::Nsh, len, None, after_nsh(bytes[3]))
}

/// Returns the entry of the label stack at the start of `bytes`.
pub(crate) fn mpls(bytes: &[u8]) -> HeaderReading
    ensures { result ≡ mpls bytes.now }
{
    if bytes.len() < 4 {
        return truncated(4);
    }
    let announced = if bytes[2] & 1 != 0 {
        Announced::IpByVersion
    } else {
        Announced::Header(HeaderKind::Mpls)
    };
    header(HeaderKind::Mpls, 4, None, announced)
}

/// Returns the header of PPP over Ethernet at the start of `bytes`, if a session's data follows it.
pub(crate) fn pppoe(bytes: &[u8]) -> HeaderReading
    ensures { result ≡ pppoe bytes.now }
{
    if bytes.len() < 6 {
        return truncated(6);
    }
    if bytes[0] == 0x11 && bytes[1] == 0 {
        header(
            HeaderKind::Pppoe,
            6,
            None,
            Announced::Header(HeaderKind::Ppp),
        )
    } else {
        not_ip()
    }
}
