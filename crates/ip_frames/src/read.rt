//! The header that the rest of a frame begins with.
ghost use Rattle.std.specs.Prelude.{◌≡◌, ◌+◌, length};
ghost use Rattle.ip_frames.specs.Headers.{header_in, by_version, reading};

use crate::ethernet::{
    ethernet, fddi, ipoib, llc, macsec, mpls, nsh, pppoe, snap, token_ring, vlan_tag,
};
use crate::header::{not_ip, truncated};
use crate::juniper::{juniper, juniper_cookie};
use crate::radio::{ieee80211, ppi, radiotap};
use crate::serial::{
    cisco_frame, cisco_hdlc, direction, frame_relay, multilink_frame_relay, multiprotocol, ppp,
    ppp_protocol, serial,
};
use crate::system::{cooked, cooked_v2, ipnet, loopback, nflog, nflog_attribute, slip};
use crate::{Announced, FrameEnd, HeaderKind, HeaderReading};

#[tactic(auto, unfolding(crate::specs::Headers::header_in))]
/// Returns the header of a kind at the start of `bytes`, or why there is none.
pub fn read_header(kind: HeaderKind, bytes: &[u8]) -> HeaderReading
    ensures { result ≡ header_in kind bytes.now }
{
    match kind {
        HeaderKind::Ethernet => ethernet(bytes),
        HeaderKind::VlanTag => vlan_tag(bytes),
        HeaderKind::Llc => llc(bytes),
        HeaderKind::Snap => snap(bytes),
        HeaderKind::TokenRing => token_ring(bytes),
        HeaderKind::Fddi => fddi(bytes),
        HeaderKind::Ieee80211 => ieee80211(bytes),
        HeaderKind::Radiotap => radiotap(bytes),
        HeaderKind::Ppi => ppi(bytes),
        HeaderKind::Ipoib => ipoib(bytes),
        HeaderKind::Cooked => cooked(bytes),
        HeaderKind::CookedV2 => cooked_v2(bytes),
        HeaderKind::Loopback => loopback(bytes),
        HeaderKind::Ipnet => ipnet(bytes),
        HeaderKind::Nflog => nflog(bytes),
        HeaderKind::NflogAttribute => nflog_attribute(bytes),
        HeaderKind::MacSec => macsec(bytes),
        HeaderKind::Nsh => nsh(bytes),
        HeaderKind::Mpls => mpls(bytes),
        HeaderKind::Pppoe => pppoe(bytes),
        HeaderKind::Ppp => ppp(bytes),
        HeaderKind::PppProtocol => ppp_protocol(bytes),
        HeaderKind::Serial => serial(bytes),
        HeaderKind::CiscoHdlc => cisco_hdlc(bytes),
        HeaderKind::FrameRelay => frame_relay(bytes),
        HeaderKind::Multiprotocol => multiprotocol(bytes),
        HeaderKind::CiscoFrame => cisco_frame(bytes),
        HeaderKind::MultilinkFrameRelay => multilink_frame_relay(bytes),
        HeaderKind::PppDirection => direction(HeaderKind::PppDirection, 1, HeaderKind::Ppp, bytes),
        HeaderKind::CiscoHdlcDirection => direction(
            HeaderKind::CiscoHdlcDirection,
            1,
            HeaderKind::CiscoHdlc,
            bytes,
        ),
        HeaderKind::FrameRelayDirection => direction(
            HeaderKind::FrameRelayDirection,
            1,
            HeaderKind::FrameRelay,
            bytes,
        ),
        HeaderKind::Pppd => direction(HeaderKind::Pppd, 2, HeaderKind::Ppp, bytes),
        HeaderKind::Slip => slip(bytes),
        HeaderKind::JuniperEthernet => juniper(
            HeaderKind::JuniperEthernet,
            HeaderKind::Ethernet,
            bytes,
        ),
        HeaderKind::JuniperAtm1 => juniper(
            HeaderKind::JuniperAtm1,
            HeaderKind::JuniperCookie,
            bytes,
        ),
        HeaderKind::JuniperCookie => juniper_cookie(bytes),
    }
}

/// Returns that the headers end at an IP packet, if the first four bits are an IP version.
fn by_version(bytes: &[u8]) -> HeaderReading
    ensures { result ≡ by_version bytes.now }
{
    if bytes.is_empty() {
        return truncated(1);
    }
    match bytes[0] >> 4 {
        4 | 6 => HeaderReading::End(FrameEnd::Ip, None),
        _ => not_ip(),
    }
}

/// Returns what `bytes` begin with after what was announced.
pub(crate) fn reading(announced: Announced, bytes: &[u8]) -> HeaderReading
    ensures { result ≡ reading announced bytes.now }
{
    match announced {
        Announced::Header(kind) => read_header(kind, bytes),
        Announced::Ip => HeaderReading::End(FrameEnd::Ip, None),
        Announced::IpByVersion => by_version(bytes),
        Announced::Other => not_ip(),
    }
}
