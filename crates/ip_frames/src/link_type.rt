//! Link types.
ghost use Rattle.std.specs.Prelude.{◌≡◌};
ghost use Rattle.ip_frames.specs.LinkTypes.{first_header};

use crate::{Announced, HeaderKind};

/// Returns what the frames of a link type begin with, or `None` if it isn't supported. The number is a LINKTYPE_ value, as
/// files have it (www.tcpdump.org/linktypes.html), or libpcap's DLT_ value for it.
#[inline(always)]
pub fn first_header(link_type: u32) -> Option<Announced>
    ensures { result ≡ first_header link_type }
{
    let kind = match link_type {
        0 | 108 => HeaderKind::Loopback,
        1 => HeaderKind::Ethernet,
        6 => HeaderKind::TokenRing,
        8 => HeaderKind::Slip,
        9 => HeaderKind::Ppp,
        10 => HeaderKind::Fddi,
        11 | 100 => HeaderKind::Llc,
        12 | 101 | 228 | 229 => return Some(Announced::Ip),
        50 => HeaderKind::Serial,
        51 => HeaderKind::Pppoe,
        104 => HeaderKind::CiscoHdlc,
        105 => HeaderKind::Ieee80211,
        107 => HeaderKind::FrameRelay,
        113 => HeaderKind::Cooked,
        127 => HeaderKind::Radiotap,
        137 => HeaderKind::JuniperAtm1,
        166 => HeaderKind::Pppd,
        178 => HeaderKind::JuniperEthernet,
        182 => HeaderKind::MultilinkFrameRelay,
        192 => HeaderKind::Ppi,
        204 => HeaderKind::PppDirection,
        205 => HeaderKind::CiscoHdlcDirection,
        206 => HeaderKind::FrameRelayDirection,
        226 => HeaderKind::Ipnet,
        239 => HeaderKind::Nflog,
        242 => HeaderKind::Ipoib,
        276 => HeaderKind::CookedV2,
        _ => return None,
    };
    Some(Announced::Header(kind))
}
