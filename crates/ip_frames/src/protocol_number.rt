//! The numbers by which headers of frames say what follows them.
ghost use Rattle.std.specs.Prelude.{◌≡◌};
ghost use Rattle.ip_frames.specs.Numbers.{ip_version, after_ethertype, after_ppp, after_nlpid, after_family, after_solaris_family, after_nflog_family};

use crate::{Announced, HeaderKind};

/// A number by which a header says what follows it.
#[derive(Clone, Copy, Debug, PartialEq, Eq)]
pub enum ProtocolNumber {
    /// An EtherType (IEEE 802.3, section 3.2.6).
    EtherType(u16),
    /// The destination service access point of an LLC frame (IEEE 802.2, section 3.3).
    Llc(u8),
    /// A PPP protocol number (RFC 1661, section 2).
    Ppp(u16),
    /// A network layer protocol identifier (RFC 2427, section 4).
    Nlpid(u8),
    /// An address family of the system that captured the frame.
    Family(u32),
    /// The type of an 802.11 frame times 16, and its subtype (IEEE 802.11, section 9.2.4.1.3).
    Ieee80211(u8),
}

impl ProtocolNumber {
    /// Returns the IP version that the number stands for, 4 or 6, or `None` if it stands for none.
    #[inline(always)]
    pub fn ip_version(&self) -> Option<u8>
        ensures { result ≡ ip_version self.now }
    {
        match *self {
            ProtocolNumber::EtherType(0x0800)
            | ProtocolNumber::Ppp(0x0021)
            | ProtocolNumber::Nlpid(0xcc)
            | ProtocolNumber::Family(2) => Some(4),
            ProtocolNumber::EtherType(0x86dd)
            | ProtocolNumber::Ppp(0x0057)
            | ProtocolNumber::Nlpid(0x8e)
            | ProtocolNumber::Family(10 | 24 | 26 | 28 | 30) => Some(6),
            _ => None,
        }
    }
}

/// Returns what follows an EtherType.
#[inline(always)]
pub(crate) fn after_ethertype(number: u16) -> Announced
    ensures { result ≡ after_ethertype number }
{
    match number {
        0x0800 | 0x86dd => Announced::Ip,
        0x8100 | 0x88a8 | 0x9100 => Announced::Header(HeaderKind::VlanTag),
        0x8847 | 0x8848 => Announced::Header(HeaderKind::Mpls),
        0x8864 => Announced::Header(HeaderKind::Pppoe),
        0x88e5 => Announced::Header(HeaderKind::MacSec),
        0x894f => Announced::Header(HeaderKind::Nsh),
        0x0004 => Announced::Header(HeaderKind::Llc),
        _ => Announced::Other,
    }
}

/// Returns what follows a PPP protocol number.
pub(crate) fn after_ppp(number: u16) -> Announced
    ensures { result ≡ after_ppp number }
{
    match number {
        0x0021 | 0x0057 => Announced::Ip,
        0x0281 | 0x0283 => Announced::Header(HeaderKind::Mpls),
        _ => Announced::Other,
    }
}

/// Returns what follows a network layer protocol identifier.
pub(crate) fn after_nlpid(number: u8) -> Announced
    ensures { result ≡ after_nlpid number }
{
    match number {
        0xcc | 0x8e => Announced::Ip,
        0x80 => Announced::Header(HeaderKind::Snap),
        0xcf => Announced::Header(HeaderKind::Ppp),
        _ => Announced::Other,
    }
}

/// Returns what follows an address family of a BSD loopback header.
pub(crate) fn after_family(number: u32) -> Announced
    ensures { result ≡ after_family number }
{
    match number {
        2 | 10 | 24 | 28 | 30 => Announced::Ip,
        _ => Announced::Other,
    }
}

/// Returns what follows an address family of Solaris.
pub(crate) fn after_solaris_family(number: u8) -> Announced
    ensures { result ≡ after_solaris_family number }
{
    match number {
        2 | 26 => Announced::Ip,
        _ => Announced::Other,
    }
}

/// Returns what follows the address family of a netfilter log.
pub(crate) fn after_nflog_family(number: u8) -> Announced
    ensures { result ≡ after_nflog_family number }
{
    match number {
        2 | 10 => Announced::Header(HeaderKind::NflogAttribute),
        _ => Announced::Other,
    }
}
