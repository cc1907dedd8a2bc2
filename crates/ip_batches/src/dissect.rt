//! Dissects the packets of a batch.
ghost use Rattle.std.specs.Prelude.{◌≡◌};
ghost use Rattle.ip_dissect.specs.Dissection.{dissected};
ghost use Rattle.ip_spans.specs.HeaderSpan.{filled};
ghost use Rattle.ip_spans.specs.DissectionParts.{dissection_parts};
ghost use Rattle.ip_batches.specs.Packets.{batch_packets};
ghost use Rattle.ip_batches.specs.Batch.{all_parts};

use crate::Batch;
use ip_dissect::{Packet, PacketStart, PacketVisitor};
use ip_spans::DissectionParts;

impl Batch<'_> {
    /// Dissects each packet, in order, and stores its parts at the front of `parts`, as many as fit; the other elements
    /// are unchanged. Offsets count from the start of each packet.
    #[inline(always)]
    #[tactic(auto, using(crate::proofs::BatchLemmas::all_stored))]
    pub fn dissect(&self, parts: &mut [DissectionParts])
        ensures { parts.new ≡ filled (all_parts (batch_packets self.now)) parts.old }
    {
        let count = self.spans.len().min(parts.len());
        let mut next = self.begins_as_ipv6(0);
        'packets: for index in 0..count {
            let begins_as_ipv6 = next;
            next = self.begins_as_ipv6(index + 1);
            put_either(self.packet(index), begins_as_ipv6, &mut parts[index]);
        }
    }
}

/// Stores the parts of the packet at the start of `bytes`, in one of two places.
#[inline(always)]
fn put_either(bytes: &[u8], begins_as_ipv6: bool, parts: &mut DissectionParts)
    ensures { parts.new ≡ dissection_parts (dissected bytes.now) }
{
    if begins_as_ipv6 {
        put_parts::<true>(bytes, parts);
    } else {
        put_parts::<false>(bytes, parts);
    }
}

/// Stores the parts of the packet at the start of `bytes`.
#[inline(always)]
fn put_parts<const IPV6: bool>(bytes: &[u8], parts: &mut DissectionParts)
    ensures { parts.new ≡ dissection_parts (dissected bytes.now) }
{
    let _ = Packet::visit(bytes, &mut Dissecting::<IPV6> { parts });
}

/// A visitor that stores the parts of packets, and no positions of extension headers.
#[derive(Debug, Drop)]
struct Dissecting<'p, const IPV6: bool> {
    parts: &'p mut DissectionParts,
}

impl<'a, const IPV6: bool> PacketVisitor<'a> for Dissecting<'_, IPV6> {
    type Plain = ();

    type Slow = ();

    ghost plain = { λ old s new _. (new.parts.ghost_name ≡ old.parts.ghost_name)
        × (new.parts.now ≡ dissection_parts (dissected s)) };

    ghost slow = { λ old s new _. (new.parts.ghost_name ≡ old.parts.ghost_name)
        × (new.parts.now ≡ dissection_parts (dissected s)) };

    #[inline(always)]
    fn visit_plain(&mut self, packet: Packet<'a>) {
        self.parts.put(&packet);
    }

    #[inline(always)]
    fn visit_slow(&mut self, start: PacketStart<'a>) {
        let packet = start.walk(&mut ());
        self.parts.put(&packet);
    }
}
