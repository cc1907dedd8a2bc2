//! Chains.
ghost use Rattle.std.specs.Prelude.{◌≡◌, ◌==◌, ◌≤◌, length, false, IsTrue, take, drop};
ghost use Rattle.ip_spec.specs.Chain.{IsEnd};
ghost use Rattle.ip_spec.specs.Demand.{KeepsBeginning};
ghost use Rattle.ip_ext_slices.specs.Longest.{longest_chain};
ghost use Rattle.ip_ext_slices.specs.ChainFault.{slice_fault};
ghost use Rattle.ip_ext_slices.specs.Ipv4Longest.{longest_ipv4_chain};
ghost use Rattle.ip_ext_chains.specs.InPlaces.{AreInPlaces};
ghost use Rattle.ip_spans.specs.HeaderSpan.{spans_from, filled};
ghost use Rattle.ip_spans.specs.ChainParts.{chain_parts, ipv4_chain_parts};
ghost use Rattle.ip_spans.specs.ChainCursor.{IsHeaderSpan};
ghost use Rattle.ip_spans.specs.FaultFields.{chain_fault_fields};

use crate::results::put_some;
use ip_ext_chains::run_len;
use ip_spans::{ChainCursor, ChainParts, FaultFields, HeaderSpan, parse_chain, parse_ipv4_chain};

/// Calls `parse_chain` and stores its result in `chain`.
#[unsafe(no_mangle)]
pub extern "C" fn wolfaren_parse_chain(
    first: u8,
    bytes: &[u8],
    spans: &mut [HeaderSpan],
    chain: &mut ChainParts,
)
    ensures chain { chain.new ≡ chain_parts first bytes.now }
    ensures within { chain.new.len ≤ length bytes.now }
    ensures spans { spans.new ≡ filled (spans_from 0 (longest_chain first bytes.now)) spans.old }
{
    *chain = parse_chain(first, bytes, spans);
}

/// Calls `parse_ipv4_chain` and stores its result in `chain`.
#[unsafe(no_mangle)]
pub extern "C" fn wolfaren_parse_ipv4_chain(
    first: u8,
    bytes: &[u8],
    spans: &mut [HeaderSpan],
    chain: &mut ChainParts,
)
    ensures chain { chain.new ≡ ipv4_chain_parts first bytes.now }
    ensures within { chain.new.len ≤ length bytes.now }
    ensures spans { spans.new ≡ filled (spans_from 0 (longest_ipv4_chain first bytes.now)) spans.old }
{
    *chain = parse_ipv4_chain(first, bytes, spans);
}

/// Calls `ChainCursor::next_header`. Returns whether a header follows; if so, stores it in `span`, which is otherwise
/// unchanged.
#[unsafe(no_mangle)]
pub extern "C" fn wolfaren_next_header(
    cursor: &mut ChainCursor,
    bytes: &[u8],
    span: &mut HeaderSpan,
) -> bool
    ensures header { IsTrue result → IsHeaderSpan cursor.old cursor.new bytes.now span.new }
    ensures end { result ≡ false
        → IsEnd (cursor.old.offset == 0) cursor.old.number (drop cursor.old.offset bytes.now) }
    ensures same { result ≡ false → (cursor.new ≡ cursor.old) × (span.new ≡ span.old) }
{
    put_some(cursor.next_header(bytes), span)
}

/// Calls `ChainCursor::fault` and stores its result in `fault`.
#[unsafe(no_mangle)]
pub extern "C" fn wolfaren_fault_at(cursor: &ChainCursor, bytes: &[u8], fault: &mut FaultFields)
    ensures { fault.new ≡ chain_fault_fields cursor.now.offset (slice_fault cursor.now.offset
        (cursor.now.offset == 0) cursor.now.number (drop cursor.now.offset bytes.now)) }
{
    *fault = cursor.fault(bytes);
}

/// Calls `run_len`.
#[unsafe(no_mangle)]
pub extern "C" fn wolfaren_run_len(spans: &[HeaderSpan]) -> usize
    ensures within { result ≤ length spans.now }
    ensures run { KeepsBeginning (AreInPlaces (λ span. span.number)) spans.now
        (take result spans.now) }
{
    run_len(spans)
}
