//! How a packet is written: its base header, the headers that are kept, and a payload.
ghost use Rattle.std.specs.Prelude.{◌≡◌, ◌≤◌, ◌<◌, ◌+◌, ◌^◌, ◌++◌, ◌==◌, ℕ, List, length, drop, if◌then◌else◌, OnOk, IfOk};
ghost use Rattle.std.specs.Result.{result_err};
ghost use Rattle.ip_spec.specs.Chain.{ExtHeader, bytes_of};
ghost use Rattle.ip_dissect.specs.Summary.{summary_of};
ghost use Rattle.ip_dissect.specs.Dissection.{DissectedParts, dissected};
ghost use Rattle.ip_rewrite.specs.Base.{number_offset};
ghost use Rattle.ip_rewrite.specs.Jumbogram.{is_unstated, jumbo_offset};
ghost use Rattle.ip_rewrite.specs.Rewritten.{joined, rewritten, rewritten_len, rewritten_field, room_fault};
ghost use Rattle.ip_rewrite.specs.Writing.{AreWritten, HasOption, front_with, link_of};

use crate::RewriteError;
use crate::base::state;
use crate::buffer::{put_at, set};
use crate::jumbogram::{state_jumbo, test_unstated};
use ip_base::IpNumber;
use ip_dissect::{Packet, Summary};

/// Returns the number for the length field of a packet with `kept_len` bytes of extension headers and `payload_len` bytes
/// of payload, if it has one.
#[inline(always)]
fn length_field(summary: &Summary, kept_len: usize, payload_len: usize) -> usize
    requires new { summary.now.base_len + kept_len + payload_len < 2 ^ 64 }
    requires old { summary.now.extensions_len + summary.now.payload_len < 2 ^ 64 }
    ensures { (p : DissectedParts) (c : List ExtHeader) (q : List ℕ) → summary.now ≡ summary_of p
        → kept_len ≡ length (bytes_of c) → payload_len ≡ length q
        → result ≡ rewritten_field p c q }
{
    if is_unstated(summary) {
        return 0;
    }
    if summary.version == 4 {
        summary.base_len + (kept_len + payload_len)
    } else {
        kept_len + payload_len
    }
}

/// Returns whether the length field is 0 although bytes follow the base header.
#[inline(always)]
pub(crate) fn is_unstated(summary: &Summary) -> bool
    requires { summary.now.extensions_len + summary.now.payload_len < 2 ^ 64 }
    ensures { (p : DissectedParts) → summary.now ≡ summary_of p → result ≡ is_unstated p }
{
    summary.stated_len.is_none() && summary.extensions_len + summary.payload_len != 0
}

/// Returns the number for the length field, or why the packet can't be written into `room` bytes.
#[inline(always)]
pub(crate) fn test_room(
    packet: &Packet<'_>,
    kept_len: usize,
    payload_len: usize,
    room: usize,
) -> Result<u16, RewriteError>
    requires new { packet.now.summary.base_len + kept_len + payload_len < 2 ^ 64 }
    requires old { packet.now.summary.extensions_len + packet.now.summary.payload_len < 2 ^ 64 }
    ensures fault { (c : List ExtHeader) (q : List ℕ) → kept_len ≡ length (bytes_of c) → payload_len ≡ length q
        → result_err result ≡ room_fault (dissected packet.now.bytes.now) c q room }
    ensures field { IfOk result (λ n. (c : List ExtHeader) (q : List ℕ) → kept_len ≡ length (bytes_of c)
        → payload_len ≡ length q → n ≡ rewritten_field (dissected packet.now.bytes.now) c q) }
    ensures fits { OnOk result (packet.now.summary.base_len + kept_len + payload_len ≤ room) }
{
    let summary = &packet.summary;
    if is_unstated(summary) {
        test_unstated(packet, kept_len + payload_len)?;
    }
    let field = length_field(summary, kept_len, payload_len);
    if field > 65535 {
        return Err(RewriteError::TooLong);
    }
    if summary.base_len + kept_len + payload_len > room {
        return Err(RewriteError::NoRoom);
    }
    Ok(field as u16)
}

/// Returns the bytes of the base header, and none if there is none.
#[inline(always)]
pub(crate) fn base_of<'a>(packet: &Packet<'a>) -> &'a [u8]
    ensures { result.now ≡ (dissected packet.now.bytes.now).base }
{
    match packet.base {
        Some(base) => base.slice(),
        None => &[],
    }
}

/// Returns the offset in the base header of the number of what follows it.
#[inline(always)]
pub(crate) fn number_offset(version: u8) -> usize
    ensures { result ≡ number_offset version }
{
    if version == 4 { 9 } else { 6 }
}

/// Returns the offset of the number of what follows the headers, by the offset of the last header.
#[tactic(auto, using(crate::proofs::FrontLemmas::link_none, crate::proofs::FrontLemmas::link_some))]
#[inline(always)]
pub(crate) fn link_after(summary: &Summary, last: usize) -> usize
    ensures { (p : DissectedParts) → summary.now ≡ summary_of p → last ≡ link_of 0 p.base p.headers
        → result ≡ link_of (number_offset p.version) p.base p.headers }
{
    if summary.header_count == 0 {
        return number_offset(summary.version);
    }
    last
}

/// Writes the length of a packet into its base header, at the front of a buffer.
#[inline(always)]
pub(crate) fn state_length(summary: &Summary, field: u16, out: &mut [u8])
    requires base { (if summary.now.version == 4 then 20 else 40) ≤ summary.now.base_len }
    requires fits { summary.now.base_len ≤ length out.old }
    ensures { (p : DissectedParts) (c : List ExtHeader) (m : ℕ) (q buffer : List ℕ) → summary.now ≡ summary_of p
        → field ≡ rewritten_field p c q
        → out.old ≡ front_with (number_offset p.version) p.base c m ++ q ++ drop (rewritten_len p c q) buffer
        → out.new ≡ joined p c m q ++ drop (rewritten_len p c q) buffer }
{
    let (base, _) = out.split_at_mut(summary.base_len);
    state(base, summary.version, field);
}

/// Writes what follows the headers, which have `exts_len` bytes, and states the length of the packet. The number of what
/// follows is at `link`.
#[inline(always)]
pub(crate) fn finish(
    packet: &Packet<'_>,
    exts_len: usize,
    link: usize,
    number: IpNumber,
    payload: &[u8],
    field: u16,
    out: &mut [u8],
)
    requires small { length out.old < 2 ^ 64 }
    requires base { (if packet.now.summary.version == 4 then 20 else 40) ≤ packet.now.summary.base_len }
    requires fits { packet.now.summary.base_len + exts_len + length payload.now ≤ length out.old }
    ensures { (c : List ExtHeader) (buffer : List ℕ) → let p = dissected packet.now.bytes.now in
        HasOption (jumbo_offset p) c → exts_len ≡ length (bytes_of c) → field ≡ rewritten_field p c payload.now
        → AreWritten (number_offset p.version) p.base buffer c out.old (packet.now.summary.base_len + exts_len) link
        → length buffer ≡ length out.old
        → out.new ≡ rewritten p c number.0 payload.now ++ drop (rewritten_len p c payload.now) buffer }
{
    let summary = &packet.summary;
    set(out, link, number.0);
    put_at(out, summary.base_len + exts_len, payload);
    state_length(summary, field, out);
    if summary.stated_len.is_none() {
        state_jumbo(packet, exts_len + payload.len(), out);
    }
}

/// Writes the base header and the extension headers of a packet as they are.
#[inline(always)]
pub(crate) fn copy_headers(packet: &Packet<'_>, out: &mut [u8])
    requires { length (dissected packet.now.bytes.now).base
        + length (bytes_of (dissected packet.now.bytes.now).headers) ≤ length out.old }
    ensures { out.new ≡ (dissected packet.now.bytes.now).base ++ bytes_of (dissected packet.now.bytes.now).headers
        ++ drop (length (dissected packet.now.bytes.now).base
        + length (bytes_of (dissected packet.now.bytes.now).headers)) out.old }
{
    let base = base_of(packet);
    put_at(out, 0, base);
    put_at(out, base.len(), packet.extensions());
}
