//! What is done with a packet, and with each of its extension headers.
ghost use Rattle.std.specs.Prelude.{◌≡◌, ◌+◌, ◌++◌, ◌∷◌, ℕ, List, [], true, false, length, refl};
ghost use Rattle.ip_spec.specs.Header.{IsHeader};
ghost use Rattle.ip_spec.specs.Chain.{ExtHeader, bytes_of};
ghost use Rattle.ip_dissect.specs.Dissection.{dissected};
ghost use Rattle.ip_dissect.specs.Summary.{is_plain};

use crate::{Packet, PacketStart};
use ip_base::IpNumber;

/// What a walk over a packet does with each extension header: it counts them, say, or stores where they are. A walk
/// passes each header once, so whatever needs all headers is done here.
pub trait HeaderVisitor {
    /// What the visitor is before and after these headers, of which the first is at this offset in bytes.
    ghost visited: { Self → ℕ → List ExtHeader → Self → Type 0 };

    /// Visits the header with this number and these bytes, which `index` headers precede, and which starts `offset`
    /// bytes after the start of the packet. The authentication header of an IPv4 packet is visited, too.
    fn visit(&mut self, number: IpNumber, header: &[u8], index: usize, offset: usize)
        requires { IsHeader number.0 header.now }
        ensures { (old : Self) (k : ℕ) (c : List ExtHeader) → visited old k c self.old
            → index ≡ length c → offset ≡ k + length (bytes_of c)
            → visited old k (c ++ record { number = number.0; bytes = header.now } ∷ []) self.new };

    /// No header changes nothing.
    ghost none: { (v : Self) (k : ℕ) → visited v k [] v };
}

/// No visitor: nothing is done with a header.
impl HeaderVisitor for () {
    ghost visited = { λ old k c new. old ≡ new };

    ghost none = { λ v k. refl };

    #[inline(always)]
    fn visit(&mut self, _number: IpNumber, _header: &[u8], _index: usize, _offset: usize) {}
}

/// What is done with a packet: it is counted, say, or a filter tells whether it matches.
pub trait PacketVisitor<'a> {
    /// What is known of a plain packet after the visit.
    type Plain;

    /// What is known of any other packet after the visit, on the slow path.
    type Slow;

    /// What the visitor is before and after the plain packet at the start of these bytes, and what is known of it.
    ghost plain: { Self → List ℕ → Self → Self.Plain → Type 0 };

    /// What the visitor is before and after any other packet at the start of these bytes, and what is known of it.
    ghost slow: { Self → List ℕ → Self → Self.Slow → Type 0 };

    /// Visits a packet without extension headers that is no fragment and has no error.
    fn visit_plain(&mut self, packet: Packet<'a>) -> Self::Plain
        requires { is_plain (dissected packet.bytes.now) ≡ true }
        ensures { plain self.old packet.entry.bytes.now self.new result };

    /// Visits any other packet, on the slow path, with its base header parsed: `PacketStart::walk` passes its extension
    /// headers.
    fn visit_slow(&mut self, start: PacketStart<'a>) -> Self::Slow
        requires { is_plain (dissected start.bytes.now) ≡ false }
        ensures { slow self.old start.entry.bytes.now self.new result };
}

/// What is known of a packet after a visit.
#[derive(Clone, Copy, Debug)]
pub enum Visited<P, O> {
    /// A packet without extension headers that is no fragment and has no error.
    Plain(P),
    /// Any other packet, which took the slow path.
    Slow(O),
}
