//! A dissected packet in plain fields.
ghost use Rattle.std.specs.Prelude.{◌≡◌, ◌+◌, length};
ghost use Rattle.std.specs.Option.{option_map_or};
ghost use Rattle.std.proofs.Common.{rules};
ghost use Rattle.ip_dissect.specs.Dissection.{dissected};
ghost use Rattle.ip_codes.specs.Codes.{fragment_code};
ghost use Rattle.ip_spans.specs.HeaderSpan.{filled, spans_from};
ghost use Rattle.ip_spans.specs.DissectionParts.{dissection_parts, dissected_spans, AreStored};

use crate::fault_fields::FaultFields;
use crate::fields::Fields;
use crate::header_span::HeaderSpan;
use ip_base::IpNumber;
use ip_codes::{end_code_of, kind_code_of};
use ip_dissect::{Fragment, HeaderVisitor, Packet, WalkVisitor};

/// A dissected packet: its parts as lengths and offsets, which fragment it is, and why its headers end where they do.
#[repr(C)]
#[derive(Clone, Copy, Debug, PartialEq, Eq)]
pub struct DissectionParts {
    /// The base header's length in bytes; 0 if there is none.
    pub base_len: usize,
    /// The packet's length in bytes by its base header; 0 if it states none.
    pub stated_len: usize,
    /// The number of extension headers.
    pub headers: usize,
    /// The payload's offset, in bytes from the start of the packet: the extension headers end here.
    pub payload_offset: usize,
    /// The payload's length in bytes, as far as it is present.
    pub payload_len: usize,
    /// How many bytes of the stated length are not present.
    pub missing: usize,
    /// How many bytes follow the packet.
    pub padding: usize,
    /// The error, if the headers end with one.
    pub fault: FaultFields,
    /// The fragment's identification; 0 if the packet isn't a fragment and has no fragment header.
    pub identification: u32,
    /// The fragment offset in bytes.
    pub fragment_offset: u32,
    /// The version, 4 or 6; 0 if there is no base header.
    pub version: u16,
    /// The protocol number of what follows the headers.
    pub payload_number: u16,
    /// The kind of fragment: 1 atomic, 2 first, 3 middle, 4 last; 0 if `identification` means nothing.
    pub fragment: u16,
    /// Why the headers end: 0 at the payload, 1 at that of a later fragment, 2 truncated, 3 faulty.
    pub end: u16,
}

/// Dissects the packet at the start of `bytes`, as `ip_dissect::dissect` does, and stores its parts in `parts`. Stores
/// the `HeaderSpan` of each extension header at the front of `spans`, as many as fit; the other elements are unchanged.
/// Offsets count from the start of the packet.
#[inline(always)]
pub fn dissect_packet(bytes: &[u8], spans: &mut [HeaderSpan], parts: &mut DissectionParts)
    ensures parts { parts.new ≡ dissection_parts (dissected bytes.now) }
    ensures spans { spans.new ≡ filled (dissected_spans (dissected bytes.now)) spans.old }
    ensures within { parts.new.payload_offset + parts.new.payload_len + parts.new.padding
        ≡ length bytes.now }
{
    Packet::walk_through(bytes, &mut PartsAndSpans { parts, spans });
}

/// The visitor of `dissect_packet`: where the parts of a packet and the spans of its extension headers are stored.
#[derive(Debug, Drop)]
pub struct PartsAndSpans<'p, 's> {
    /// The parts.
    pub parts: &'p mut DissectionParts,
    /// The spans of the first headers, as many as fit.
    pub spans: &'s mut [HeaderSpan],
}

impl HeaderVisitor for PartsAndSpans<'_, '_> {
    ghost visited = { λ old k c new. (new.parts.ghost_name ≡ old.parts.ghost_name)
        × (new.spans.ghost_name ≡ old.spans.ghost_name)
        × (new.spans.now ≡ filled (spans_from k c) old.spans.now) };

    ghost none = { Prim.search rules };

    /// Stores the span of the header, if it fits.
    #[inline(always)]
    fn visit(&mut self, number: IpNumber, header: &[u8], index: usize, offset: usize) {
        if index < self.spans.len() {
            self.spans[index].put(HeaderSpan {
                offset,
                len: header.len(),
                number: number.0,
                next_header: header[0],
            });
        }
    }
}

impl WalkVisitor for PartsAndSpans<'_, '_> {
    ghost walked = { AreStored };

    /// Stores the parts of the packet.
    #[inline(always)]
    fn end(&mut self, packet: &Packet<'_>) {
        self.parts.put(packet);
    }
}

impl DissectionParts {
    /// Stores the parts of a packet here, one by one.
    #[inline(always)]
    pub fn put(&mut self, packet: &Packet<'_>)
        ensures { self.new ≡ dissection_parts (dissected packet.now.bytes.now) }
    {
        let summary = &packet.summary;
        self.base_len = summary.base_len;
        self.stated_len = summary.stated_len.unwrap_or(0);
        self.headers = summary.header_count;
        self.payload_offset = summary.base_len + summary.extensions_len;
        self.payload_len = summary.payload_len;
        self.missing = summary.missing;
        self.padding = summary.padding_len;
        self.put_fragment(summary.fragment);
        self.version = u16::from(summary.version);
        self.payload_number = u16::from(summary.next_header.0);
        // In two branches, so that an error's fields are read where they were stored, and aren't moved first.
        if summary.has_error {
            let end = packet.end();
            self.fault
                .put(FaultFields::of_end(self.payload_offset, &end));
            self.end = end_code_of(&end);
        } else {
            self.fault.put(FaultFields::none());
            self.end = end_code_of(&packet.end());
        }
    }

    /// Stores the fields of the fragment here.
    #[inline(always)]
    fn put_fragment(&mut self, fragment: Option<Fragment>)
        ensures { self.new ≡ record self.old {
          identification = option_map_or (λ x. x.identification) fragment 0;
          fragment_offset = option_map_or (λ x. x.offset) fragment 0;
          fragment = fragment_code fragment;
        } }
    {
        match fragment {
            Some(fragment) => {
                self.identification = fragment.identification;
                self.fragment_offset = u32::from(fragment.offset);
                self.fragment = kind_code_of(fragment.kind);
            }
            None => {
                self.identification = 0;
                self.fragment_offset = 0;
                self.fragment = 0;
            }
        }
    }
}
