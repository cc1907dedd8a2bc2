//! Packets without their first extension header, as routers most often write them: if no header restricts changes, one walk
//! gathers what is needed, and all that follows the first header is copied at once.
ghost use Rattle.std.specs.Prelude.{◌≡◌, ◌≤◌, ◌<◌, ◌+◌, ◌^◌, ◌++◌, ◌==◌, ◌||◌, None, false, length, drop, take, if◌then◌else◌, IfSome};
ghost use Rattle.std.specs.List.{list_any};
ghost use Rattle.std.proofs.Common.{rules};
ghost use Rattle.ip_spec.specs.Fields.{next_header};
ghost use Rattle.ip_spec.specs.Chain.{ExtHeader, bytes_of};
ghost use Rattle.ip_dissect.specs.Dissection.{DissectedParts, dissected};
ghost use Rattle.ip_dissect.specs.Summary.{summary_of};
ghost use Rattle.ip_rewrite.specs.Rewritten.{rewritten_field};
ghost use Rattle.ip_rewrite.specs.Selection.{kept};
ghost use Rattle.ip_rewrite.specs.Without.{packet_fault, without, without_fault, len_without, parts_without, keeps_checksums};
ghost use Rattle.ip_rewrite.specs.Jumbogram.{jumbo_offset};
ghost use Rattle.ip_rewrite.specs.Writing.{SelectsFirst, HasOption, first_len, first_segments, is_otherwise, selects_otherwise, restricts, is_unrestricted};

use crate::buffer::{put, set};
use crate::header::has_segments;
use crate::write::{base_of, is_unstated, number_offset, state_length};
use crate::{Authentication, Rewritten, Which};
use ip_base::{IpNumber, ip_number};
use ip_dissect::{HeaderVisitor, Packet, Summary};

/// What was seen of a packet's headers, of which the first is to be left out.
#[derive(Clone, Copy, Debug)]
struct First {
    /// The headers that are to be left out.
    which: Which,
    /// The length of the first header in bytes.
    len: usize,
    /// The first header is a routing header with segments left.
    has_segments: bool,
    /// The first header isn't selected, or another one is.
    selects_otherwise: bool,
    /// Some header restricts changes.
    restricts: bool,
}

impl HeaderVisitor for First {
    ghost visited = { λ old k c new. (new.which ≡ old.which)
        × (new.len ≡ first_len old.len c)
        × (new.has_segments ≡ first_segments old.has_segments c)
        × (new.selects_otherwise ≡ (old.selects_otherwise || selects_otherwise old.which 0 c))
        × (new.restricts ≡ (old.restricts || list_any restricts c)) };

    ghost none = { λ v k. Prim.search rules };

    #[inline(always)]
    fn visit(&mut self, number: IpNumber, header: &[u8], index: usize, _offset: usize) {
        self.selects_otherwise |= is_otherwise(self.which, number, index);
        self.restricts |= restricts(number);
        if index == 0 {
            self.len = header.len();
            self.has_segments = has_segments(number, header);
        }
    }
}

/// Returns whether a header is selected, or for the first one whether it isn't.
#[inline(always)]
fn is_otherwise(which: Which, number: IpNumber, index: usize) -> bool
    ensures { (h : ExtHeader) → h.number ≡ number.0 → result ≡ is_otherwise which index h }
{
    let is_selected = which.selects(number, index);
    if index == 0 {
        !is_selected
    } else {
        is_selected
    }
}

/// Returns whether a header restricts changes: whether it is a fragment or authentication header.
#[inline(always)]
fn restricts(number: IpNumber) -> bool
    ensures { (h : ExtHeader) → h.number ≡ number.0 → result ≡ restricts h }
{
    (number == ip_number::IPV6_FRAG) | (number == ip_number::AUTH)
}

/// Returns whether the first header may be selected, by a look at its number.
#[inline(always)]
fn may_select_first(packet: &[u8], which: Which) -> bool {
    packet.len() > 40 && which.selects(IpNumber(packet[6]), 0)
}

/// Returns what is seen of the headers of a packet.
#[inline(always)]
fn first_of(packet: &[u8], which: Which) -> (Packet<'_>, First)
    ensures bytes { result.0.bytes.now ≡ packet.now }
    ensures len { result.1.len ≡ first_len 0 (dissected packet.now).headers }
    ensures segments { result.1.has_segments ≡ first_segments false (dissected packet.now).headers }
    ensures otherwise { result.1.selects_otherwise ≡ selects_otherwise which 0 (dissected packet.now).headers }
    ensures restricts { result.1.restricts ≡ list_any restricts (dissected packet.now).headers }
{
    let mut first = First {
        which,
        len: 0,
        has_segments: false,
        selects_otherwise: false,
        restricts: false,
    };
    let packet = Packet::walk(packet, &mut first);
    (packet, first)
}

/// Returns whether an IPv6 packet is whole and states its length, and is no later fragment.
#[inline(always)]
fn is_unrestricted(summary: &Summary) -> bool
    requires { summary.now.extensions_len + summary.now.payload_len < 2 ^ 64 }
    ensures { (p : DissectedParts) → summary.now ≡ summary_of p → result ≡ is_unrestricted p }
{
    if summary.version != 6 {
        return false;
    }
    let is_whole = !summary.has_error & (summary.missing == 0);
    is_whole & !summary.is_later_fragment & !is_unstated(summary)
}

/// Returns the number of what follows a header.
#[inline(always)]
fn next_number(header: &[u8]) -> u8
    requires { 0 < length header.now }
    ensures { result ≡ next_header header.now }
{
    header[0]
}

/// Returns the bytes of the packet after its base header and `len` bytes of extension headers.
#[inline(always)]
fn bytes_after<'a>(packet: &Packet<'a>, len: usize) -> &'a [u8]
    requires { len ≤ length (bytes_of (dissected packet.now.bytes.now).headers) }
    ensures { result.now ≡ drop len (bytes_of (dissected packet.now.bytes.now).headers)
        ++ (dissected packet.now.bytes.now).payload }
{
    let summary = &packet.summary;
    let start = summary.base_len + len;
    let end = summary.base_len + summary.extensions_len + summary.payload_len;
    &packet.bytes[start..end]
}

/// Copies bytes, of which there are `len`, to the front of a buffer.
#[inline(always)]
fn put_front(out: &mut [u8], bytes: &[u8], len: usize)
    requires len { length bytes.now ≡ len }
    requires fits { length bytes.now ≤ length out.old }
    ensures { out.new ≡ bytes.now ++ drop (length bytes.now) out.old }
{
    out[..len].copy_from_slice(&bytes[..len]);
}

/// Copies a base header to the front of a buffer: that of IPv6, of 40 bytes, without a call.
#[inline(always)]
fn put_base(out: &mut [u8], base: &[u8])
    requires { length base.now ≤ length out.old }
    ensures { out.new ≡ base.now ++ drop (length base.now) out.old }
{
    if base.len() == 40 {
        put_front(out, base, 40);
    } else {
        put_front(out, base, base.len());
    }
}

/// Writes the packet without its first header, which has `len` bytes; `field` is the number for the length field.
#[inline(always)]
fn write_after_first(packet: &Packet<'_>, which: Which, len: usize, field: u16, out: &mut [u8])
    requires small { length out.old < 2 ^ 64 }
    requires whole { packet_fault (dissected packet.now.bytes.now) ≡ None }
    requires base { (if (dissected packet.now.bytes.now).version == 4 then 20 else 40)
        ≤ length (dissected packet.now.bytes.now).base }
    requires first { SelectsFirst which (dissected packet.now.bytes.now).headers len }
    requires field { field ≡ rewritten_field (dissected packet.now.bytes.now)
        (kept which (dissected packet.now.bytes.now).headers) (dissected packet.now.bytes.now).payload }
    requires option { HasOption (jumbo_offset (dissected packet.now.bytes.now))
        (kept which (dissected packet.now.bytes.now).headers) }
    requires fits { len_without which (dissected packet.now.bytes.now) ≤ length out.old }
    ensures { out.new ≡ without which (dissected packet.now.bytes.now)
        ++ drop (len_without which (dissected packet.now.bytes.now)) out.old }
{
    let summary = &packet.summary;
    let base = base_of(packet);
    let (first, _) = packet.extensions().split_at(len);
    put_base(out, base);
    set(out, number_offset(summary.version), next_number(first));
    put(out, base.len(), bytes_after(packet, len));
    state_length(summary, field, out);
}

/// Writes a packet without its first extension header, if that alone is selected and no header restricts changes: such a
/// packet needs only room. Returns `None`, and writes nothing, for any other packet.
#[inline(always)]
pub(crate) fn write_without_first(packet: &[u8], which: Which, out: &mut [u8]) -> Option<Rewritten>
    ensures fault { IfSome result (λ r. (a : Authentication)
        → without_fault which a (dissected packet.now) (length out.old) ≡ None) }
    ensures len { IfSome result (λ r. r.len ≡ len_without which (dissected packet.now)) }
    ensures checksums { IfSome result (λ r. r.keeps_checksums ≡ keeps_checksums which (dissected packet.now)) }
    ensures written { IfSome result (λ r. out.new ≡ without which (dissected packet.now) ++ drop r.len out.old) }
    ensures dissects { IfSome result (λ r. dissected (take r.len out.new) ≡ parts_without which (dissected packet.now)) }
    ensures stays { result ≡ None → out.new ≡ out.old }
{
    if !may_select_first(packet, which) {
        return None;
    }
    let (packet, first) = first_of(packet, which);
    let summary = &packet.summary;
    if !is_unrestricted(summary) {
        return None;
    }
    if first.selects_otherwise | first.restricts | (first.len == 0) {
        return None;
    }
    let field = summary.extensions_len - first.len + summary.payload_len;
    let len = summary.base_len + field;
    if (field > 65535) | (len > out.len()) {
        return None;
    }
    write_after_first(&packet, which, first.len, field as u16, out);
    Some(Rewritten {
        len,
        keeps_checksums: !first.has_segments,
    })
}
