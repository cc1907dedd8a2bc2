//! A protocol number.
ghost use Rattle.std.specs.Prelude.{◌≡◌};

use std::fmt;

/// A protocol number, as in the protocol field of IPv4 and the next header fields of IPv6 and its extension headers
/// (RFC 8200, section 3).
#[derive(Clone, Copy, PartialEq, Eq, Hash)]
pub struct IpNumber(pub u8);

impl IpNumber {
    /// IPv6 hop-by-hop options.
    pub const IPV6_HEADER_HOP_BY_HOP: IpNumber = IpNumber(0);

    /// UDP.
    pub const UDP: IpNumber = IpNumber(17);

    /// The IPv6 routing header.
    pub const IPV6_ROUTE_HEADER: IpNumber = IpNumber(43);

    /// The IPv6 fragment header.
    pub const IPV6_FRAGMENTATION_HEADER: IpNumber = IpNumber(44);

    /// The authentication header.
    pub const AUTHENTICATION_HEADER: IpNumber = IpNumber(51);

    /// No next header.
    pub const IPV6_NO_NEXT_HEADER: IpNumber = IpNumber(59);

    /// IPv6 destination options.
    pub const IPV6_DESTINATION_OPTIONS: IpNumber = IpNumber(60);
}

/// Formats the number in decimal. The name of an extension header follows in brackets: `44 (IPv6-Frag - Fragment
/// Header for IPv6)`.
impl fmt::Debug for IpNumber {
    fn fmt<W: fmt::Write>(&self, f: &mut fmt::Formatter<W>) -> fmt::Result {
        let name = match self.0 {
            0 => "HOPOPT - IPv6 Hop-by-Hop Option",
            43 => "IPv6-Route - Routing Header for IPv6",
            44 => "IPv6-Frag - Fragment Header for IPv6",
            51 => "AH - Authentication Header",
            60 => "IPv6-Opts - Destination Options for IPv6",
            _ => return write!(f, "{}", self.0),
        };
        write!(f, "{} ({name})", self.0)
    }
}

impl From<u8> for IpNumber {
    ghost from_gives = { λ value number. number.0 ≡ value };

    fn from(value: u8) -> IpNumber {
        IpNumber(value)
    }
}
