//! Packets.
ghost use Rattle.std.specs.Prelude.{◌≡◌, ◌+◌, ◌≤◌, length, false, IsTrue, Some, None};
ghost use Rattle.ip_base.specs.Ipv4Header.{version};
ghost use Rattle.ip_dissect.specs.Dissection.{dissected};
ghost use Rattle.ip_spans.specs.HeaderSpan.{filled};
ghost use Rattle.ip_spans.specs.DissectionParts.{dissection_parts, dissected_spans};
ghost use Rattle.ip_spans.specs.PacketParts.{IsPacketParts, payload_span, parts_in, ip_fault_fields, lax_ip_fault_fields};
ghost use Rattle.ip_batches.specs.Batch.{packets_at, first_outside, all_parts};

use crate::bytes::Bytes;
use crate::results::put_result;
use ip_batches::{Batch, PacketSpan};
use ip_spans::{
    DissectionParts, FaultFields, HeaderSpan, PacketParts, PayloadSpan, dissect_packet,
    find_payload, find_payload_lax, parse_packet, parse_packet_lax,
};

/// Calls `parse_packet`. Returns whether the bytes start with a packet. If so, stores it in `packet`, and `fault` is
/// unchanged; otherwise stores the error in `fault`, and the others are unchanged.
#[unsafe(no_mangle)]
pub extern "C" fn wolfaren_parse_packet(
    bytes: Bytes<'_>,
    spans: &mut [HeaderSpan],
    packet: &mut PacketParts,
    fault: &mut FaultFields,
) -> bool
    ensures packet { IsTrue result → IsPacketParts bytes.entry.slice.now spans.old packet.new spans.new }
    ensures within { IsTrue result
        → packet.new.payload_offset + packet.new.payload_len ≤ length bytes.entry.slice.now }
    ensures no_fault { IsTrue result → ip_fault_fields bytes.entry.slice.now ≡ None }
    ensures kept { IsTrue result → fault.new ≡ fault.old }
    ensures fault { result ≡ false → ip_fault_fields bytes.entry.slice.now ≡ Some fault.new }
    ensures same { result ≡ false → (packet.new ≡ packet.old) × (spans.new ≡ spans.old) }
{
    put_result(parse_packet(bytes.slice(), spans), packet, fault)
}

/// Calls `parse_packet_lax`, as `wolfaren_parse_packet` calls `parse_packet`.
#[unsafe(no_mangle)]
pub extern "C" fn wolfaren_parse_packet_lax(
    bytes: Bytes<'_>,
    spans: &mut [HeaderSpan],
    packet: &mut PacketParts,
    fault: &mut FaultFields,
) -> bool
    ensures packet { IsTrue result → IsPacketParts bytes.entry.slice.now spans.old packet.new spans.new }
    ensures within { IsTrue result
        → packet.new.payload_offset + packet.new.payload_len ≤ length bytes.entry.slice.now }
    ensures no_fault { IsTrue result → lax_ip_fault_fields bytes.entry.slice.now ≡ None }
    ensures kept { IsTrue result → fault.new ≡ fault.old }
    ensures fault { result ≡ false → lax_ip_fault_fields bytes.entry.slice.now ≡ Some fault.new }
    ensures same { result ≡ false → (packet.new ≡ packet.old) × (spans.new ≡ spans.old) }
{
    put_result(parse_packet_lax(bytes.slice(), spans), packet, fault)
}

/// Calls `find_payload`. Returns whether the bytes start with a packet. If so, stores its payload in `payload`, and
/// `fault` is unchanged; otherwise stores the error in `fault`, and `payload` is unchanged.
#[unsafe(no_mangle)]
pub extern "C" fn wolfaren_find_payload(
    bytes: Bytes<'_>,
    payload: &mut PayloadSpan,
    fault: &mut FaultFields,
) -> bool
    ensures payload { IsTrue result
        → payload.new ≡ payload_span (version bytes.entry.slice.now) (parts_in bytes.entry.slice.now) }
    ensures within { IsTrue result
        → payload.new.offset + payload.new.len ≤ length bytes.entry.slice.now }
    ensures no_fault { IsTrue result → ip_fault_fields bytes.entry.slice.now ≡ None }
    ensures kept { IsTrue result → fault.new ≡ fault.old }
    ensures fault { result ≡ false → ip_fault_fields bytes.entry.slice.now ≡ Some fault.new }
    ensures same { result ≡ false → payload.new ≡ payload.old }
{
    put_result(find_payload(bytes.slice()), payload, fault)
}

/// Calls `find_payload_lax`, as `wolfaren_find_payload` calls `find_payload`.
#[unsafe(no_mangle)]
pub extern "C" fn wolfaren_find_payload_lax(
    bytes: Bytes<'_>,
    payload: &mut PayloadSpan,
    fault: &mut FaultFields,
) -> bool
    ensures payload { IsTrue result
        → payload.new ≡ payload_span (version bytes.entry.slice.now) (parts_in bytes.entry.slice.now) }
    ensures within { IsTrue result
        → payload.new.offset + payload.new.len ≤ length bytes.entry.slice.now }
    ensures no_fault { IsTrue result → lax_ip_fault_fields bytes.entry.slice.now ≡ None }
    ensures kept { IsTrue result → fault.new ≡ fault.old }
    ensures fault { result ≡ false → lax_ip_fault_fields bytes.entry.slice.now ≡ Some fault.new }
    ensures same { result ≡ false → payload.new ≡ payload.old }
{
    put_result(find_payload_lax(bytes.slice()), payload, fault)
}

/// Calls `dissect_packet`.
#[unsafe(no_mangle)]
pub extern "C" fn wolfaren_dissect(
    bytes: Bytes<'_>,
    spans: &mut [HeaderSpan],
    parts: &mut DissectionParts,
)
    ensures parts { parts.new ≡ dissection_parts (dissected bytes.entry.slice.now) }
    ensures spans { spans.new
        ≡ filled (dissected_spans (dissected bytes.entry.slice.now)) spans.old }
    ensures within { parts.new.payload_offset + parts.new.payload_len + parts.new.padding
        ≡ length bytes.entry.slice.now }
{
    dissect_packet(bytes.slice(), spans, parts);
}

/// Calls `Batch::dissect` with the packets at the spans. Returns whether each span lies within the bytes. If so, `outside` is
/// unchanged; otherwise stores the index of the first one that doesn't in `outside`, and `parts` is unchanged.
#[unsafe(no_mangle)]
pub extern "C" fn wolfaren_dissect_packets(
    bytes: Bytes<'_>,
    spans: &[PacketSpan],
    parts: &mut [DissectionParts],
    outside: &mut usize,
) -> bool
    ensures parts { IsTrue result → parts.new ≡ filled
        (all_parts (packets_at bytes.entry.slice.now spans.now)) parts.old }
    ensures within { IsTrue result → first_outside bytes.entry.slice.now spans.now ≡ None }
    ensures kept { IsTrue result → outside.new ≡ outside.old }
    ensures outside { result ≡ false
        → first_outside bytes.entry.slice.now spans.now ≡ Some outside.new }
    ensures same { result ≡ false → parts.new ≡ parts.old }
{
    match Batch::try_new(bytes.slice(), spans) {
        Ok(batch) => {
            batch.dissect(parts);
            true
        }
        Err(index) => {
            *outside = index;
            false
        }
    }
}
