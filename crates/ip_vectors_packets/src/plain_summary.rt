//! The summary of a packet that is visited as plain.
ghost use Rattle.std.specs.Prelude.{◌≡◌, is_some};
ghost use Rattle.ip_dissect.specs.Dissection.{dissected};
ghost use Rattle.ip_dissect.specs.Summary.{summary_of, is_plain};

use ip_dissect::{Packet, PacketStart, PacketVisitor, Summary, Visited};

/// A visitor that returns the summary of a plain packet.
#[derive(Drop)]
struct PlainSummary;

impl<'a> PacketVisitor<'a> for PlainSummary {
    type Plain = Summary;

    type Slow = ();

    ghost plain = { λ old s new summary. summary ≡ summary_of (dissected s) };

    ghost slow = { λ old s new _. new ≡ old };

    fn visit_plain(&mut self, packet: Packet<'a>) -> Summary {
        packet.summary
    }

    fn visit_slow(&mut self, _start: PacketStart<'a>) {}
}

/// Returns the summary of the packet at the start of the bytes, if it is plain.
pub fn plain_summary(bytes: &[u8]) -> Option<Summary>
    ensures { is_some result ≡ is_plain (dissected bytes.now) }
{
    match Packet::visit(bytes, &mut PlainSummary) {
        Visited::Plain(summary) => Some(summary),
        Visited::Slow(()) => None,
    }
}
