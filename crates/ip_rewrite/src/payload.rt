//! Packets with another payload.
ghost use Rattle.std.specs.Prelude.{◌≡◌, ◌≤◌, ◌<◌, ◌+◌, ◌^◌, ◌++◌, ◌==◌, ◌||◌, ℕ, List, length, drop, take, false, None, if◌then◌else◌, IfOk, OnOk, OnErr};
ghost use Rattle.std.specs.List.{list_any};
ghost use Rattle.std.specs.Result.{result_err};
ghost use Rattle.std.proofs.Common.{rules};
ghost use Rattle.ip_dissect.specs.Dissection.{DissectedParts, dissected};
ghost use Rattle.ip_dissect.specs.Summary.{summary_of};
ghost use Rattle.ip_rewrite.specs.Rewritten.{is_extension, is_read_on, rewritten, rewritten_len, rewritten_field, rewritten_parts};
ghost use Rattle.ip_rewrite.specs.Without.{is_authentication, packet_fault};
ghost use Rattle.ip_rewrite.specs.Payload.{is_non_atomic, replacement_fault, payload_fault};
ghost use Rattle.ip_rewrite.specs.Writing.{link_of};

use crate::removal::test_packet;
use crate::write::{copy_headers, finish, link_after, test_room};
use crate::{Authentication, RewriteError, Rewritten};
use ip_base::{IpNumber, ip_number};
use ip_dissect::{FragmentKind, HeaderVisitor, Packet, Summary};
use ip_ext_slices::is_extension;

/// What was seen of the headers before a payload.
#[derive(Clone, Copy, Debug)]
struct Seen {
    /// There is an authentication header.
    has_authentication: bool,
    /// The offset of the last header.
    last: usize,
}

impl HeaderVisitor for Seen {
    ghost visited = { λ old k c new.
        (new.has_authentication ≡ (old.has_authentication || list_any is_authentication c))
        × ((b : List ℕ) → k ≡ length b → new.last ≡ link_of old.last b c) };

    ghost none = { λ v k. Prim.search rules };

    #[inline(always)]
    fn visit(&mut self, number: IpNumber, _header: &[u8], _index: usize, offset: usize) {
        self.has_authentication |= number == ip_number::AUTH;
        self.last = offset;
    }
}

/// Returns whether a packet is a fragment, but not a whole packet with a fragment header.
#[inline(always)]
fn is_non_atomic(summary: &Summary) -> bool
    ensures { (p : DissectedParts) → summary.now ≡ summary_of p → result ≡ is_non_atomic p }
{
    match summary.fragment {
        Some(fragment) => !matches!(fragment.kind, FragmentKind::Atomic),
        None => false,
    }
}

/// Returns whether the number is an extension header's.
#[inline(always)]
pub(crate) fn is_extension_number(number: IpNumber) -> bool
    ensures { result ≡ is_extension number.0 }
{
    is_extension(number)
}

/// Returns whether bytes that start with this number would be read as one more header.
#[tactic(auto, using(crate::proofs::PayloadLemmas::empty_count))]
#[inline(always)]
fn is_read_on(summary: &Summary, number: IpNumber) -> bool
    ensures { (p : DissectedParts) → summary.now ≡ summary_of p
        → result ≡ is_read_on p.version p.headers number.0 }
{
    if summary.version == 4 {
        return summary.header_count == 0 && number == ip_number::AUTH;
    }
    is_extension_number(number)
}

/// Returns why the payload can't be replaced by one with this number.
#[inline(always)]
fn test_replacement(
    summary: &Summary,
    has_authentication: bool,
    authentication: Authentication,
    number: IpNumber,
) -> Result<(), RewriteError>
    ensures { (p : DissectedParts) → summary.now ≡ summary_of p
        → has_authentication ≡ list_any is_authentication p.headers
        → result_err result ≡ replacement_fault authentication number.0 p }
{
    if is_non_atomic(summary) {
        return Err(RewriteError::Fragmented);
    }
    if has_authentication && authentication == Authentication::Valid {
        return Err(RewriteError::Authenticated);
    }
    if is_read_on(summary, number) {
        return Err(RewriteError::HeaderFollows);
    }
    Ok(())
}

/// Returns the number for the length field, or why the packet can't be written with this payload.
#[inline(always)]
fn test(
    packet: &Packet<'_>,
    has_authentication: bool,
    authentication: Authentication,
    number: IpNumber,
    payload: &[u8],
    room: usize,
) -> Result<u16, RewriteError>
    requires seen { has_authentication ≡ list_any is_authentication (dissected packet.now.bytes.now).headers }
    requires small { length packet.now.bytes.now < 2 ^ 63 }
    requires new { length payload.now < 2 ^ 63 }
    ensures fault { result_err result
        ≡ payload_fault authentication number.0 payload.now (dissected packet.now.bytes.now) room }
    ensures field { IfOk result (λ n. n ≡ rewritten_field (dissected packet.now.bytes.now)
        (dissected packet.now.bytes.now).headers payload.now) }
    ensures fits { OnOk result (rewritten_len (dissected packet.now.bytes.now)
        (dissected packet.now.bytes.now).headers payload.now ≤ room) }
    ensures base { OnOk result ((if (dissected packet.now.bytes.now).version == 4 then 20 else 40)
        ≤ length (dissected packet.now.bytes.now).base) }
{
    let summary = &packet.summary;
    test_packet(summary)?;
    test_replacement(summary, has_authentication, authentication, number)?;
    test_room(packet, summary.extensions_len, payload.len(), room)
}

/// Writes the headers of a packet and this payload, to which `last`, the offset of the last header, leads.
#[inline(always)]
fn write_payload(
    packet: &Packet<'_>,
    last: usize,
    number: IpNumber,
    payload: &[u8],
    field: u16,
    out: &mut [u8],
)
    requires small { length out.old < 2 ^ 64 }
    requires base { (if (dissected packet.now.bytes.now).version == 4 then 20 else 40)
        ≤ length (dissected packet.now.bytes.now).base }
    requires last { last ≡ link_of 0 (dissected packet.now.bytes.now).base (dissected packet.now.bytes.now).headers }
    requires whole { packet_fault (dissected packet.now.bytes.now) ≡ None }
    requires field { field ≡ rewritten_field (dissected packet.now.bytes.now)
        (dissected packet.now.bytes.now).headers payload.now }
    requires fits { rewritten_len (dissected packet.now.bytes.now)
        (dissected packet.now.bytes.now).headers payload.now ≤ length out.old }
    ensures { out.new ≡ rewritten (dissected packet.now.bytes.now)
        (dissected packet.now.bytes.now).headers number.0 payload.now
        ++ drop (rewritten_len (dissected packet.now.bytes.now)
        (dissected packet.now.bytes.now).headers payload.now) out.old }
{
    let summary = &packet.summary;
    let link = link_after(summary, last);
    copy_headers(packet, out);
    finish(
        packet,
        summary.extensions_len,
        link,
        number,
        payload,
        field,
        out,
    );
}

/// Writes a packet to the front of `out` with another payload after the same headers. `number` is the protocol number
/// of the payload, which is written as it is, checksums included.
pub fn with_payload(
    packet: &[u8],
    number: IpNumber,
    payload: &[u8],
    authentication: Authentication,
    out: &mut [u8],
) -> Result<Rewritten, RewriteError>
    ensures fault { result_err result
        ≡ payload_fault authentication number.0 payload.now (dissected packet.now) (length out.old) }
    ensures len { IfOk result (λ r. let p = dissected packet.now in
        r.len ≡ rewritten_len p p.headers payload.now) }
    ensures checksums { IfOk result (λ r. r.keeps_checksums ≡ false) }
    ensures written { IfOk result (λ r. let p = dissected packet.now in
        out.new ≡ rewritten p p.headers number.0 payload.now ++ drop r.len out.old) }
    ensures dissects { IfOk result (λ r. let p = dissected packet.now in
        dissected (take r.len out.new) ≡ rewritten_parts p p.headers number.0 payload.now) }
    ensures stays { OnErr result (out.new ≡ out.old) }
{
    let mut seen = Seen {
        has_authentication: false,
        last: 0,
    };
    let packet = Packet::walk(packet, &mut seen);
    let has_authentication = seen.has_authentication;
    match test(
        &packet,
        has_authentication,
        authentication,
        number,
        payload,
        out.len(),
    ) {
        Ok(field) => {
            let summary = &packet.summary;
            let len = summary.base_len + summary.extensions_len + payload.len();
            write_payload(&packet, seen.last, number, payload, field, out);
            Ok(Rewritten {
                len,
                keeps_checksums: false,
            })
        }
        Err(error) => Err(error),
    }
}
