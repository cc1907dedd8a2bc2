//! Filters.
ghost use Rattle.std.specs.Prelude.{◌≡◌, ◌≤◌, ◌<◌, ◌+◌, ◌↔◌, List, drop, take, length, slice_index, false, IsTrue, Some, None, if◌then◌else◌};
ghost use Rattle.ip_dissect.specs.Dissection.{dissected};
ghost use Rattle.ip_filter.specs.Tests.{meets};
ghost use Rattle.ip_filter.specs.Frames.{meets_in};
ghost use Rattle.ip_filter.specs.Program.{tests_of, passes};
ghost use Rattle.ip_filter.specs.Parsed.{IsParsedFilter, IsFirstError};
ghost use Rattle.ip_filter.specs.declared.parse_error.Expected.{Expected as WasExpected};
ghost use Rattle.ip_bpf.specs.declared.instruction.Instruction.{Instruction as BpfInstruction};
ghost use Rattle.ip_filter_bpf.specs.Compiled.{IsCompiled};
ghost use Rattle.ip_filter_bpf.specs.declared.undecided.Undecided.TheVariants.{Keep, Drop};
ghost use Rattle.ip_spans.specs.FilterError.{expected_code};
ghost use Rattle.ip_spans.specs.HeaderSpan.{filled};
ghost use Rattle.ipexts_c.specs.Frames.{frame_of, packet_in};
ghost use Rattle.ip_batches.specs.Batch.{packets_at, first_outside, matches_of};

use crate::bytes::Bytes;
use ip_batches::{Batch, PacketSpan};
use ip_bpf::Instruction;
use ip_filter::{Filter, Frame};
use ip_filter_bpf::{Undecided, write_program};
use ip_frames::FrameFields;
use ip_spans::{FilterError, expected_text, parse_filter};

/// Calls `parse_filter`. Returns whether the text is a filter. If so, stores it in `filter`, and `error` is unchanged;
/// otherwise stores the error in `error`, and `filter` is unchanged.
#[unsafe(no_mangle)]
pub extern "C" fn wolfaren_parse_filter(
    text: &[u8],
    filter: &mut Filter,
    error: &mut FilterError,
) -> bool
    ensures filter { IsTrue result → IsParsedFilter text.now filter.new }
    ensures no_error { IsTrue result → error.new ≡ error.old }
    ensures error { result ≡ false → (x : WasExpected) × (error.new.expected ≡ expected_code x)
        × IsFirstError text.now error.new.offset x }
    ensures same { result ≡ false → filter.new ≡ filter.old }
{
    match parse_filter(text, filter) {
        Ok(()) => true,
        Err(found) => {
            *error = found;
            false
        }
    }
}

/// Calls `expected_text`.
#[unsafe(no_mangle)]
pub extern "C" fn wolfaren_expected_text(expected: u8, text: &mut [u8]) -> usize
    ensures most { result ≤ 255 }
    ensures end { result < length text.old → slice_index text.new result ≡ 0 }
    ensures after { drop (result + 1) text.new ≡ drop (result + 1) text.old }
    ensures refused { length text.old ≤ result → text.new ≡ text.old }
    ensures len { length text.new ≡ length text.old }
{
    expected_text(expected, text)
}

/// Calls `Filter::matches`.
#[unsafe(no_mangle)]
pub extern "C" fn wolfaren_filter_matches(filter: &Filter, bytes: Bytes<'_>) -> bool
    ensures { result ≡ passes (tests_of filter.now) (λ x. meets x (dissected bytes.entry.slice.now)) }
{
    filter.matches(bytes.slice())
}

/// Calls `Batch::filter` with the packets at the spans. Returns whether each span lies within the bytes. If so, `outside` is
/// unchanged; otherwise stores the index of the first one that doesn't in `outside`, and `matches` is unchanged.
#[unsafe(no_mangle)]
pub extern "C" fn wolfaren_filter_packets(
    filter: &Filter,
    bytes: Bytes<'_>,
    spans: &[PacketSpan],
    matches: &mut [u8],
    outside: &mut usize,
) -> bool
    ensures matches { IsTrue result → matches.new ≡ filled
        (matches_of filter.now (packets_at bytes.entry.slice.now spans.now)) matches.old }
    ensures within { IsTrue result → first_outside bytes.entry.slice.now spans.now ≡ None }
    ensures kept { IsTrue result → outside.new ≡ outside.old }
    ensures outside { result ≡ false
        → first_outside bytes.entry.slice.now spans.now ≡ Some outside.new }
    ensures same { result ≡ false → matches.new ≡ matches.old }
{
    match Batch::try_new(bytes.slice(), spans) {
        Ok(batch) => {
            batch.filter(filter, matches);
            true
        }
        Err(index) => {
            *outside = index;
            false
        }
    }
}

/// Calls `Filter::matches_frame` with what was found in a frame and its length on the wire, or if no IP packet was found,
/// `Filter::matches_other_frame`.
#[unsafe(no_mangle)]
pub extern "C" fn wolfaren_filter_matches_frame(
    filter: &Filter,
    frame: &FrameFields,
    wire_len: u64,
    packet: Bytes<'_>,
) -> bool
    ensures { result ≡ passes (tests_of filter.now)
        (meets_in (frame_of frame.now wire_len) (packet_in frame.now packet.entry.slice.now)) }
{
    let found = frame_of(frame, wire_len);
    if frame.end == 0 {
        filter.matches_frame(&found, packet.slice())
    } else {
        filter.matches_other_frame(&found)
    }
}

/// Returns the frame in which these fields were found.
fn frame_of(fields: &FrameFields, wire_len: u64) -> Frame
    ensures { result ≡ frame_of fields.now wire_len }
{
    Frame {
        wire_len,
        ether_type: if fields.number_kind == 1 && fields.number < 65536 {
            Some(fields.number as u16)
        } else {
            None
        },
        version: if fields.version == 0 {
            None
        } else {
            Some(fields.version)
        },
        outer_vlan: if fields.vlan_count > 0 {
            Some(fields.first_vlan)
        } else {
            None
        },
        inner_vlan: if fields.vlan_count > 1 {
            Some(fields.second_vlan)
        } else {
            None
        },
    }
}

/// Calls `Filter::matches_other`.
#[unsafe(no_mangle)]
pub extern "C" fn wolfaren_filter_matches_other(filter: &Filter) -> bool
    ensures { result ≡ passes (tests_of filter.now) (λ x. false) }
{
    filter.matches_other()
}

/// Returns what a program does with packets that it can't decide.
fn undecided(keeps: bool) -> Undecided
    ensures { result ≡ (if keeps then Keep else Drop) }
{
    if keeps {
        Undecided::Keep
    } else {
        Undecided::Drop
    }
}

/// Calls `write_program`, with `Keep` if `keeps_undecided` is true, otherwise with `Drop`. Stores the number of instructions in
/// `count`, and returns whether they fit.
#[unsafe(no_mangle)]
pub extern "C" fn wolfaren_compile_filter(
    filter: &Filter,
    keeps_undecided: bool,
    instructions: &mut [Instruction],
    count: &mut usize,
) -> bool
    ensures fits { IsTrue result ↔ (count.new ≤ length instructions.old) }
    ensures count { let u = if keeps_undecided then Keep else Drop in
        (program : List BpfInstruction) × IsCompiled u filter.now program × (length program ≡ count.new) }
    ensures compiled { let u = if keeps_undecided then Keep else Drop in
        IsTrue result → IsCompiled u filter.now (take count.new instructions.new) }
    ensures after { IsTrue result → drop count.new instructions.new ≡ drop count.new instructions.old }
    ensures same { result ≡ false → instructions.new ≡ instructions.old }
{
    *count = write_program(filter, undecided(keeps_undecided), instructions);
    *count <= instructions.len()
}
