//! Callers of `ip_spans`.
ghost use Rattle.std.specs.Prelude.{◌≡◌, ◌↔◌, ◌≤◌, ◌==◌, ◌+◌, ◌⊎◌, List, ℕ, [], ◌++◌, drop, length, IsTrue, IfSome};
ghost use Rattle.ip_base.specs.Ipv4Header.{version};
ghost use Rattle.ip_base.specs.Prefix.{IsPrefix};
ghost use Rattle.ip_spec.specs.Chain.{ExtHeader, IsNext};
ghost use Rattle.ip_spec.specs.Demand.{KeepsBeginning};
ghost use Rattle.ip_spec.specs.Fields.{next_header};
ghost use Rattle.ip_spec.specs.Header.{IsRawHeader};
ghost use Rattle.ip_spec.specs.Parse.{rest_after};
ghost use Rattle.ip_header_contents.specs.Options.{OptionFields, StartsWithOption, option_bytes};
ghost use Rattle.ip_header_contents.specs.Routing.{IsLayout, routing_type, segments_left};
ghost use Rattle.ip_header_contents.specs.declared.routing_layout.AddressLayout.{AddressLayout};
ghost use Rattle.ip_ext_slices.specs.Longest.{longest_chain};
ghost use Rattle.ip_ext_chains.specs.InPlaces.{AreInPlaces};
ghost use Rattle.ip_spans.specs.HeaderSpan.{filled, spans_from};
ghost use Rattle.ip_spans.specs.OptionCursor.{header_rest};
ghost use Rattle.ip_spans.specs.PacketParts.{parts_in};

use ip_ext_chains::run_len;
use ip_spans::{ChainCursor, HeaderSpan, OptionCursor, parse_chain, parse_packet, routing_fields};

/// Returns whether the array has room for each header of the chain.
pub fn has_room(first: u8, packet: &[u8], spans: &mut [HeaderSpan]) -> bool
    ensures { IsTrue result ↔ (length (longest_chain first packet.now) ≤ length spans.old) }
{
    parse_chain(first, packet, spans).headers <= spans.len()
}

/// Returns the bytes after the chain.
pub fn after_chain(first: u8, packet: &[u8]) -> &[u8]
    ensures { result.now ≡ rest_after (longest_chain first packet.now) packet.now }
{
    let chain = parse_chain(first, packet, &mut []);
    &packet[chain.len..]
}

/// Returns the headers of the first struct of six places, and those left for others.
pub fn first_run(headers: &[HeaderSpan]) -> (&[HeaderSpan], &[HeaderSpan])
    ensures run { KeepsBeginning (AreInPlaces (λ span. span.number)) headers.now result.0.now }
    ensures all { result.0.now ++ result.1.now ≡ headers.now }
{
    headers.split_at(run_len(headers))
}

/// Returns the bytes of the header at the cursor, and moves the cursor to what the header leads to.
pub fn header_at_cursor<'a>(cursor: &mut ChainCursor, bytes: &'a [u8]) -> Option<&'a [u8]>
    ensures { IfSome result (λ b. (h : ExtHeader)
        × IsNext (cursor.old.offset == 0) cursor.old.number (drop cursor.old.offset bytes.now) h
        × (b.now ≡ h.bytes) × (cursor.new.offset ≡ cursor.old.offset + length h.bytes)
        × (cursor.new.number ≡ next_header h.bytes)) }
{
    let span = cursor.next_header(bytes)?;
    Some(&bytes[span.offset..span.offset + span.len])
}

/// Returns the type of the option at the cursor and the length of its data in bytes, and moves the cursor past the option.
pub fn option_at_cursor(cursor: &mut OptionCursor, bytes: &[u8]) -> Option<(u8, usize)>
    ensures { IfSome result (λ x. (o : OptionFields) × StartsWithOption (header_rest cursor.old bytes.now) o
        × (x.0 ≡ o.option_type) × (x.1 ≡ length o.value)
        × (cursor.new.offset ≡ cursor.old.offset + length (option_bytes o))
        × (cursor.new.end ≡ cursor.old.end)) }
{
    let option = cursor.next_option(bytes)?;
    Some((option.option_type, option.data_len))
}

/// Returns the type of the routing header at the start of `bytes`, its segments left, and the bytes after it with their number.
pub fn routing_type_and_rest(bytes: &[u8]) -> Option<(u8, u8, u8, &[u8])>
    ensures { IfSome result (λ x. (b : List ℕ) × IsRawHeader b × (b ++ x.3.now ≡ bytes.now)
        × (x.0 ≡ routing_type b) × (x.1 ≡ segments_left b) × (x.2 ≡ next_header b)) }
{
    let header = routing_fields(bytes)?;
    let rest = &bytes[header.len..];
    Some((
        header.routing_type,
        header.segments_left,
        header.next_header,
        rest,
    ))
}

/// Returns how many addresses the routing header at the start of `bytes` has, if there is a header: 0 if they don't fit it.
pub fn address_count(bytes: &[u8]) -> Option<usize>
    ensures { IfSome result (λ n. (b : List ℕ) × IsRawHeader b × IsPrefix b bytes.now
        × (((x : AddressLayout) × IsLayout b x × (n ≡ x.count))
        ⊎ ((n ≡ 0) × ((x : AddressLayout) → IsLayout b x → ⊥)))) }
{
    Some(routing_fields(bytes)?.addresses)
}

/// Returns the offset of the payload of the packet at the start of `bytes` and the version, and stores where its extension
/// headers are.
pub fn payload_of_packet(bytes: &[u8], spans: &mut [HeaderSpan]) -> Option<(usize, u16)>
    ensures len { IfSome result (λ x. x.0 + length (parts_in bytes.now).payload ≤ length bytes.now) }
    ensures version { IfSome result (λ x. x.1 ≡ version bytes.now) }
    ensures headers { IfSome result (λ _. spans.new
        ≡ filled (spans_from (length (parts_in bytes.now).base) (parts_in bytes.now).headers) spans.old) }
{
    match parse_packet(bytes, spans) {
        Ok(packet) => Some((packet.payload_offset, packet.version)),
        Err(_) => None,
    }
}
