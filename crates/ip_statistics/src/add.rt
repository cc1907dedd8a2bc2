//! What one packet counts, added to statistics.
ghost use Rattle.std.specs.Prelude.{◌≡◌, if◌then◌else◌};
ghost use Rattle.ip_dissect.specs.End.{has_error};
ghost use Rattle.ip_statistics.specs.Packet.{is_fragment_of};

use crate::Statistics;
use crate::counts::{add, count_at, count_if};
use crate::faults::{index_of, layer_code_at};
use crate::headers::count_none;
use crate::lengths::count_length;
use ip_codes::{end_code_of, kind_code_of};
use ip_dissect::FragmentKind::{Atomic, First, Last, Middle};
use ip_dissect::{End, Fragment, FragmentKind, Packet, Summary, WalkVisitor};

/// The codes of ends.
mod at {
    pub const PAYLOAD: u16 = 0;

    pub const LATER_FRAGMENT: u16 = 1;

    pub const TRUNCATED_HEADER: u16 = 2;

    pub const FAULT: u16 = 3;
}

/// Returns whether the fragment is of this kind.
#[inline(always)]
fn is_of_kind(fragment: Option<Fragment>, kind: FragmentKind) -> bool
    ensures { result ≡ is_fragment_of kind fragment }
{
    match fragment {
        Some(fragment) => kind_code_of(fragment.kind) == kind_code_of(kind),
        None => false,
    }
}

/// Returns how many of the bytes after the headers are counted as payload.
#[inline(always)]
fn payload_bytes(end: &End, len: usize) -> u64
    ensures { result ≡ (if has_error end.now then 0 else len) }
{
    match end {
        End::Payload | End::LaterFragment => len as u64,
        End::Truncated { .. } | End::Fault { .. } => 0,
    }
}

impl Statistics {
    ghost use Rattle.std.specs.Prelude.{ℕ, List, ◌∷◌};
    ghost use Rattle.ip_dissect.specs.Dissection.{DissectedParts, dissected};
    ghost use Rattle.ip_dissect.specs.Summary.{summary_of};
    ghost use Rattle.ip_statistics.specs.Packet.{counts_of};
    ghost use Rattle.ip_statistics.specs.Statistics.{merged};
    ghost use Rattle.ip_statistics.specs.Lists.{statistics_of};

    /// Counts the packet at the start of `bytes`, which may be any bytes.
    #[inline(always)]
    pub fn count_packet(&mut self, bytes: &[u8])
        ensures counts { self.new ≡ merged self.old (counts_of (dissected bytes.now)) }
        ensures packets { (xs : List (List ℕ)) → self.old ≡ statistics_of xs
            → self.new ≡ statistics_of (bytes.now ∷ xs) }
    {
        count_none(&self.headers);
        Packet::walk_through(bytes, self);
    }

    /// Counts the packet at the start of `bytes`, which may be any bytes, and has another visitor visit it in the same
    /// walk.
    #[inline(always)]
    pub fn count_and_visit<W: WalkVisitor>(&mut self, bytes: &[u8], visitor: &mut W)
        ensures counts { self.new ≡ merged self.old (counts_of (dissected bytes.now)) }
        ensures visited { W.walked visitor.old bytes.now visitor.new }
    {
        count_none(&self.headers);
        Packet::walk_through(bytes, &mut (self, visitor));
    }

    /// Adds all counts of a packet with this summary and end but those of its extension headers by number.
    #[inline(always)]
    fn add_summary(&mut self, summary: &Summary, end: &End)
        ensures { (p : DissectedParts) → summary.now ≡ summary_of p → end.now ≡ p.end
            → self.new ≡ record (merged self.old (counts_of p)) { headers = self.old.headers } }
    {
        count_if(&mut self.ipv6, summary.version == 6);
        count_if(&mut self.ipv4, summary.version == 4);
        count_if(&mut self.without_header, summary.version == 0);
        add(&mut self.packets, 1);
        count_if(&mut self.incomplete, summary.missing != 0);
        let fragment = summary.fragment;
        count_if(&mut self.atomic_fragments, is_of_kind(fragment, Atomic));
        count_if(&mut self.first_fragments, is_of_kind(fragment, First));
        count_if(&mut self.middle_fragments, is_of_kind(fragment, Middle));
        count_if(&mut self.last_fragments, is_of_kind(fragment, Last));
        let has_chain = summary.version != 0;
        let header_count = summary.header_count.min(16);
        count_at(&mut self.chain_headers, header_count, has_chain);
        count_length(&mut self.chain_bytes, summary.extensions_len, has_chain);
        let code = end_code_of(end);
        count_if(&mut self.at_payload, code == at::PAYLOAD);
        count_if(&mut self.at_later_fragment, code == at::LATER_FRAGMENT);
        count_if(&mut self.at_truncated_header, code == at::TRUNCATED_HEADER);
        count_if(&mut self.at_fault, code == at::FAULT);
        let layer = usize::from(layer_code_at(end));
        count_at(
            &mut self.truncated_headers,
            layer,
            code == at::TRUNCATED_HEADER,
        );
        count_at(&mut self.faults, index_of(end), code == at::FAULT);
        add(
            &mut self.payload_bytes,
            payload_bytes(end, summary.payload_len),
        );
        let number = usize::from(summary.next_header.0);
        count_at(&mut self.payload_numbers, number, code == at::PAYLOAD);
        count_at(
            &mut self.later_fragment_numbers,
            number,
            code == at::LATER_FRAGMENT,
        );
    }
}

impl WalkVisitor for Statistics {
    ghost use Rattle.ip_dissect.specs.Dissection.{dissected};
    ghost use Rattle.ip_statistics.specs.HeaderCounts.{AreCounts};
    ghost use Rattle.ip_statistics.specs.Packet.{counts_of};
    ghost use Rattle.ip_statistics.specs.Statistics.{merged};

    ghost walked = { λ old s new. AreCounts old.headers → new ≡ merged old (counts_of (dissected s)) };

    /// Adds all counts of the packet but those of its extension headers by number, which `visit` has added.
    #[inline(always)]
    fn end(&mut self, packet: &Packet<'_>) {
        self.add_summary(&packet.summary, &packet.end());
    }
}
