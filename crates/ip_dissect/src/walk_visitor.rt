//! What is done with a packet and with its extension headers in one walk, by one visitor or by two.
ghost use Rattle.std.specs.Prelude.{◌≡◌, ℕ, List, length};
ghost use Rattle.std.proofs.Common.{rules};
ghost use Rattle.ip_dissect.specs.Dissection.{dissected};

use crate::{HeaderVisitor, Packet, PacketStart, PacketVisitor};
use ip_base::IpNumber;

/// What a walk over a packet does with each extension header, and with the packet after them.
pub trait WalkVisitor: HeaderVisitor {
    /// What the visitor is before and after the packet at the start of these bytes.
    ghost walked: { Self → List ℕ → Self → Type 0 };

    /// Ends the walk over the packet, whose extension headers have been visited.
    fn end(&mut self, packet: &Packet<'_>)
        ensures { (old : Self) → Self.visited old (length (dissected packet.now.bytes.now).base)
            (dissected packet.now.bytes.now).headers self.old
            → walked old packet.now.bytes.now self.new };
}

impl<'a> Packet<'a> {
    /// Walks the packet at the start of `bytes`, which may be any bytes, once: the visitor visits each extension header
    /// and then the packet.
    #[inline(always)]
    pub fn walk_through<W: WalkVisitor>(bytes: &'a [u8], visitor: &mut W)
        ensures { W.walked visitor.old bytes.now visitor.new }
    {
        let _ = Packet::visit(bytes, &mut Walking { visitor });
    }
}

/// A visitor of packets that walks through each.
#[derive(Debug, Drop)]
struct Walking<'w, W> {
    visitor: &'w mut W,
}

impl<'a, W: WalkVisitor> PacketVisitor<'a> for Walking<'_, W> {
    type Plain = ();

    type Slow = ();

    ghost plain = { λ old s new _. (new.visitor.ghost_name ≡ old.visitor.ghost_name)
        × W.walked old.visitor.now s new.visitor.now };

    ghost slow = { λ old s new _. (new.visitor.ghost_name ≡ old.visitor.ghost_name)
        × W.walked old.visitor.now s new.visitor.now };

    #[inline(always)]
    fn visit_plain(&mut self, packet: Packet<'a>) {
        self.visitor.end(&packet);
    }

    #[inline(always)]
    fn visit_slow(&mut self, start: PacketStart<'a>) {
        let packet = start.walk(self.visitor);
        self.visitor.end(&packet);
    }
}

/// Two visitors in one walk: each visits every extension header and then the packet.
impl<A: HeaderVisitor, B: HeaderVisitor> HeaderVisitor for (&mut A, &mut B) {
    ghost visited = { λ old k c new. (new.0.ghost_name ≡ old.0.ghost_name)
        × (new.1.ghost_name ≡ old.1.ghost_name)
        × A.visited old.0.now k c new.0.now
        × B.visited old.1.now k c new.1.now };

    ghost none = { Prim.search rules };

    #[inline(always)]
    fn visit(&mut self, number: IpNumber, header: &[u8], index: usize, offset: usize) {
        self.0.visit(number, header, index, offset);
        self.1.visit(number, header, index, offset);
    }
}

impl<A: WalkVisitor, B: WalkVisitor> WalkVisitor for (&mut A, &mut B) {
    ghost walked = { λ old s new. (new.0.ghost_name ≡ old.0.ghost_name)
        × (new.1.ghost_name ≡ old.1.ghost_name)
        × A.walked old.0.now s new.0.now
        × B.walked old.1.now s new.1.now };

    #[inline(always)]
    fn end(&mut self, packet: &Packet<'_>) {
        self.0.end(packet);
        self.1.end(packet);
    }
}
