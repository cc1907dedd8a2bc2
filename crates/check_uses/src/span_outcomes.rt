//! Callers that need the clause of one result of a call on plain numbers, like those of single headers
//! (`header_outcomes.rt`).
ghost use Rattle.std.specs.Prelude.{◌≡◌, ◌≤◌, ◌<◌, ◌+◌, ◌*◌, ◌/◌, ◌⊎◌, List, ℕ, ◌++◌, take, drop, length, IfSome, IfNone};
ghost use Rattle.ip_base.specs.Prefix.{IsPrefix};
ghost use Rattle.ip_spec.specs.Chain.{ExtHeader, IsChain, bytes_of};
ghost use Rattle.ip_spec.specs.Fields.{next_header, fragment_fields, auth_fields};
ghost use Rattle.ip_spec.specs.Header.{IsHeader, IsRawHeader, IsAuthHeader};
ghost use Rattle.ip_header_contents.specs.Options.{OptionFields, StartsWithOption, option_bytes, may_change};
ghost use Rattle.ip_header_contents.specs.Routing.{IsLayout, address, expanded};
ghost use Rattle.ip_header_contents.specs.declared.routing_layout.AddressLayout.{AddressLayout};
ghost use Rattle.ip_ext_slices.specs.Longest.{longest_chain};
ghost use Rattle.ip_codes.specs.Codes.{len_source_code};
ghost use Rattle.ip_spans.specs.OptionCursor.{header_rest};
ghost use Rattle.ip_spans.specs.PacketParts.{parts_in};

use ip_spans::{
    ChainCursor, HeaderSpan, OptionCursor, auth_fields, fragment_fields, parse_chain, parse_packet,
    routing_address, routing_fields, write_headers,
};

/// Returns the identification, the fragment offset in bytes, whether more fragments follow, and the next header of the
/// fragment header at the start of `bytes`.
pub fn fragment_at_start(bytes: &[u8]) -> Option<(u32, u32, bool, u8)>
    ensures within { IfSome result (λ _. 8 ≤ length bytes.now) }
    ensures identification { IfSome result (λ x.
        x.0 ≡ (fragment_fields (take 8 bytes.now)).identification) }
    ensures offset { IfSome result (λ x.
        x.1 ≡ 8 * (fragment_fields (take 8 bytes.now)).fragment_offset) }
    ensures more { IfSome result (λ x.
        x.2 ≡ (fragment_fields (take 8 bytes.now)).more_fragments) }
    ensures next { IfSome result (λ x. x.3 ≡ next_header (take 8 bytes.now)) }
{
    let header = fragment_fields(bytes)?;
    Some((
        header.identification,
        header.fragment_offset,
        header.more_fragments == 1,
        header.next_header,
    ))
}

/// Returns the security parameters index, the sequence number and the next header of the authentication header at the start
/// of `bytes`, and the bytes after it.
pub fn authentication_at_start(bytes: &[u8]) -> Option<(u32, u32, u8, &[u8])>
    ensures { IfSome result (λ x. (b : List ℕ) × IsAuthHeader b × (b ++ x.3.now ≡ bytes.now)
        × (x.0 ≡ (auth_fields b).spi) × (x.1 ≡ (auth_fields b).sequence_number)
        × (x.2 ≡ next_header b)) }
{
    let header = auth_fields(bytes)?;
    let rest = &bytes[header.len..];
    Some((header.spi, header.sequence_number, header.next_header, rest))
}

/// Returns how many bytes each address of the routing header at the start of `bytes` has in the header, but for the last one,
/// and how many the last one has. Both are 0 if the header has no addresses.
pub fn address_lengths(bytes: &[u8]) -> Option<(usize, usize)>
    ensures { IfSome result (λ n. (b : List ℕ) × IsRawHeader b × IsPrefix b bytes.now
        × (((x : AddressLayout) × IsLayout b x × (n.0 ≡ x.len) × (n.1 ≡ x.last_len))
        ⊎ ((n.0 ≡ 0) × (n.1 ≡ 0) × ((x : AddressLayout) → IsLayout b x → ⊥)))) }
{
    let header = routing_fields(bytes)?;
    Some((header.address_len, header.last_address_len))
}

/// Returns the address with this index of the routing header at the start of `bytes`, if the header has so many.
pub fn address_with_index(bytes: &[u8], index: usize, destination: &[u8; 16]) -> Option<[u8; 16]>
    ensures some { IfSome result (λ a. (b : List ℕ) × IsRawHeader b × IsPrefix b bytes.now
        × (x : AddressLayout) × IsLayout b x × (index < x.count)
        × (a ≡ expanded destination.now (address x b index))) }
    ensures none { IfNone result ((b : List ℕ) → IsRawHeader b → IsPrefix b bytes.now
        → (x : AddressLayout) → IsLayout b x → x.count ≤ index) }
{
    routing_address(bytes, index, destination)
}

/// Returns the number and the next header of the header at the cursor, and moves the cursor past it.
pub fn numbers_at_cursor(cursor: &mut ChainCursor, bytes: &[u8]) -> Option<(u8, u8)>
    ensures number { IfSome result (λ x. x.0 ≡ cursor.old.number) }
    ensures next { IfSome result (λ x. x.1 ≡ cursor.new.number) }
{
    let header = cursor.next_header(bytes)?;
    Some((header.number, header.next_header))
}

/// Returns the offsets of the option at the cursor and of its data, and moves the cursor past the option.
pub fn offsets_at_cursor(cursor: &mut OptionCursor, bytes: &[u8]) -> Option<(usize, usize)>
    ensures { IfSome result (λ x. (o : OptionFields) × StartsWithOption (header_rest cursor.old bytes.now) o
        × (x.0 ≡ cursor.old.offset) × (x.1 + length o.value ≡ x.0 + length (option_bytes o))) }
{
    let option = cursor.next_option(bytes)?;
    Some((option.offset, option.data_offset))
}

/// Returns what the type of the option at the cursor says: its two high bits, and whether the data can change on the way.
/// Moves the cursor past the option.
pub fn rules_at_cursor(cursor: &mut OptionCursor, bytes: &[u8]) -> Option<(u8, bool)>
    ensures { IfSome result (λ x. (o : OptionFields) × StartsWithOption (header_rest cursor.old bytes.now) o
        × (x.0 ≡ o.option_type / 64) × (x.1 ≡ may_change o.option_type)) }
{
    let option = cursor.next_option(bytes)?;
    Some((option.if_unknown, option.may_change == 1))
}

/// Returns the lengths in bytes of the base header, of the extension headers and of the payload of the packet at the start of
/// `bytes`.
pub fn lengths_in_packet(bytes: &[u8], spans: &mut [HeaderSpan]) -> Option<(usize, usize, usize)>
    ensures base { IfSome result (λ x. x.0 ≡ length (parts_in bytes.now).base) }
    ensures headers { IfSome result (λ x. x.1 ≡ length (bytes_of (parts_in bytes.now).headers)) }
    ensures payload { IfSome result (λ x. x.2 ≡ length (parts_in bytes.now).payload) }
{
    match parse_packet(bytes, spans) {
        Ok(packet) => Some((
            packet.base_len,
            packet.payload_offset - packet.base_len,
            packet.payload_len,
        )),
        Err(_) => None,
    }
}

/// Returns the number of extension headers of the packet at the start of `bytes`, the payload's protocol number, whether the
/// payload is a fragment, and the code of the source of its length.
pub fn numbers_in_packet(bytes: &[u8], spans: &mut [HeaderSpan]) -> Option<(usize, u16, bool, u16)>
    ensures headers { IfSome result (λ x. x.0 ≡ length (parts_in bytes.now).headers) }
    ensures payload { IfSome result (λ x. x.1 ≡ (parts_in bytes.now).number) }
    ensures fragmented { IfSome result (λ x. x.2 ≡ (parts_in bytes.now).fragmented) }
    ensures source { IfSome result (λ x. x.3 ≡ len_source_code (parts_in bytes.now).source) }
{
    match parse_packet(bytes, spans) {
        Ok(packet) => Some((
            packet.headers,
            packet.payload_number,
            packet.fragmented == 1,
            packet.len_source,
        )),
        Err(_) => None,
    }
}

/// Writes the header that the span refers to, if it fits `out`. Returns its length in bytes, or `None` if the span doesn't
/// refer to a header of its number.
pub fn write_one(bytes: &[u8], span: HeaderSpan, out: &mut [u8]) -> Option<usize>
    ensures within { IfSome result (λ _. span.offset + span.len ≤ length bytes.now) }
    ensures header { IfSome result (λ _.
        IsHeader span.number (take span.len (drop span.offset bytes.now))) }
    ensures none { IfNone result (span.offset + span.len ≤ length bytes.now
        → IsHeader span.number (take span.len (drop span.offset bytes.now)) → ⊥) }
{
    write_headers(bytes, &[span], out)
}

/// Writes the longest chain at the start of `bytes`, with its reserved bits zero, if it fits `out`. Returns its length in
/// bytes, or `None` if it has more headers than `spans` has elements.
pub fn copy_chain(
    first: u8,
    bytes: &[u8],
    spans: &mut [HeaderSpan],
    out: &mut [u8],
) -> Option<usize>
    ensures len { IfSome result (λ len. len ≡ length (bytes_of (longest_chain first bytes.now))) }
    ensures chain { IfSome result (λ len. len ≤ length out.old → (c : List ExtHeader) × IsChain first c
        × (out.new ≡ bytes_of c ++ drop (length (bytes_of c)) out.old)) }
    ensures none { IfNone result (length spans.old < length (longest_chain first bytes.now)) }
{
    let chain = parse_chain(first, bytes, spans);
    if spans.len() < chain.headers {
        return None;
    }
    write_headers(bytes, &spans[..chain.headers], out)
}
