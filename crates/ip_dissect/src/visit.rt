//! A visit of the packet at the start of any bytes.
ghost use Rattle.std.specs.Prelude.{◌≡◌, false, None, Some};
ghost use Rattle.ip_base.specs.Prefix.{IsPrefix};
ghost use Rattle.ip_base.specs.Ipv4HeaderSlice as ipv4_header;
ghost use Rattle.ip_base.specs.Ipv6HeaderSlice as ipv6_header;
ghost use Rattle.ip_dissect.specs.Dissection.{dissected};
ghost use Rattle.ip_dissect.specs.Summary.{is_plain, IsBaseOf};
ghost use Rattle.ip_dissect.specs.Visited.{IsVisited};
ghost use Rattle.ip_dissect.specs.declared.dissection.BaseHeader.TheVariants.{Ipv4, Ipv6};

use crate::plain::{ipv4_plain, ipv6_plain};
use crate::{BaseHeader, Packet, PacketStart, PacketVisitor, Visited};
use ip_base::{Ipv4HeaderSlice, Ipv6HeaderSlice};

impl<'a> Packet<'a> {
    /// Visits the packet at the start of `bytes`, which may be any bytes, and returns what the visitor knows then.
    /// Parses the base header once. A packet that isn't plain is visited out of line, by a function for each version,
    /// so that most packets need no loop and no registers that would have to be saved.
    #[inline(always)]
    pub fn visit<V: PacketVisitor<'a>>(
        bytes: &'a [u8],
        visitor: &mut V,
    ) -> Visited<V::Plain, V::Slow>
        ensures { IsVisited V.plain V.slow visitor.old bytes.now visitor.new result }
    {
        if bytes.is_empty() {
            return Visited::Slow(without_base(bytes, visitor));
        }
        // not by `base_header`, with whose result the compiler selects the length of the header before it is known
        match bytes[0] >> 4 {
            4 => match Ipv4HeaderSlice::from_slice(bytes) {
                Ok(base) => visit_ipv4(base, bytes, visitor),
                Err(_) => Visited::Slow(without_base(bytes, visitor)),
            },
            6 => match Ipv6HeaderSlice::from_slice(bytes) {
                Ok(base) => visit_ipv6(base, bytes, visitor),
                Err(_) => Visited::Slow(without_base(bytes, visitor)),
            },
            _ => Visited::Slow(without_base(bytes, visitor)),
        }
    }
}

/// Visits the IPv4 packet with this base header.
#[inline(always)]
fn visit_ipv4<'a, V: PacketVisitor<'a>>(
    base: Ipv4HeaderSlice<'a>,
    bytes: &'a [u8],
    visitor: &mut V,
) -> Visited<V::Plain, V::Slow>
    requires { IsPrefix (ipv4_header.bytes base) bytes.now }
    ensures { IsVisited V.plain V.slow visitor.old bytes.now visitor.new result }
{
    match ipv4_plain(base, bytes) {
        Some(summary) => Visited::Plain(visitor.visit_plain(Packet {
            bytes,
            base: Some(BaseHeader::Ipv4(base)),
            summary,
        })),
        None => Visited::Slow(slow_ipv4(base, bytes, visitor)),
    }
}

/// Visits the IPv6 packet with this base header.
#[inline(always)]
fn visit_ipv6<'a, V: PacketVisitor<'a>>(
    base: Ipv6HeaderSlice<'a>,
    bytes: &'a [u8],
    visitor: &mut V,
) -> Visited<V::Plain, V::Slow>
    requires { IsPrefix (ipv6_header.bytes base) bytes.now }
    ensures { IsVisited V.plain V.slow visitor.old bytes.now visitor.new result }
{
    match ipv6_plain(base, bytes) {
        Some(summary) => Visited::Plain(visitor.visit_plain(Packet {
            bytes,
            base: Some(BaseHeader::Ipv6(base)),
            summary,
        })),
        None => Visited::Slow(slow_ipv6(base, bytes, visitor)),
    }
}

/// Visits the IPv4 packet with this base header, which isn't plain.
#[inline(never)]
fn slow_ipv4<'a, V: PacketVisitor<'a>>(
    base: Ipv4HeaderSlice<'a>,
    bytes: &'a [u8],
    visitor: &mut V,
) -> V::Slow
    requires base { IsBaseOf bytes.now (Some (Ipv4 base)) }
    requires plain { is_plain (dissected bytes.now) ≡ false }
    ensures { V.slow visitor.old bytes.now visitor.new result }
{
    visitor.visit_slow(PacketStart {
        bytes,
        base: Some(BaseHeader::Ipv4(base)),
    })
}

/// Visits the IPv6 packet with this base header, which isn't plain.
#[inline(never)]
fn slow_ipv6<'a, V: PacketVisitor<'a>>(
    base: Ipv6HeaderSlice<'a>,
    bytes: &'a [u8],
    visitor: &mut V,
) -> V::Slow
    requires base { IsBaseOf bytes.now (Some (Ipv6 base)) }
    requires plain { is_plain (dissected bytes.now) ≡ false }
    ensures { V.slow visitor.old bytes.now visitor.new result }
{
    visitor.visit_slow(PacketStart {
        bytes,
        base: Some(BaseHeader::Ipv6(base)),
    })
}

/// Visits bytes that don't start with a whole base header.
#[inline(never)]
fn without_base<'a, V: PacketVisitor<'a>>(bytes: &'a [u8], visitor: &mut V) -> V::Slow
    requires { IsBaseOf bytes.now None }
    ensures plain { is_plain (dissected bytes.now) ≡ false }
    ensures visited { V.slow visitor.old bytes.now visitor.new result }
{
    visitor.visit_slow(PacketStart { bytes, base: None })
}
