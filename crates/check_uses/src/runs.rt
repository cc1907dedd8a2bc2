//! Callers of runs.
ghost use Rattle.std.specs.Prelude.{◌≡◌, ◌+◌, ◌/◌, ◌≤◌, List, [], ◌∷◌, length, map, IfOk, IfSome, IfNone};
ghost use Rattle.ip_spec.specs.Chain.{ExtHeader, leads_to};
ghost use Rattle.ip_spec.specs.Parse.{rest_after};
ghost use Rattle.ip_ext_slices.specs.Longest.{longest_chain};
ghost use Rattle.ip_ext_chains.specs.RunsOf.{runs_of};
ghost use Rattle.ip_ext_chains.specs.Ipv6ExtensionsRuns.{start, input, runs_left, values_left, number_left};
ghost use Rattle.ip_ext_chains.specs.Ipv6Extensions.{value_of};

use ip_base::IpNumber;
use ip_ext_chains::{Ipv6Extensions, Ipv6ExtensionsRuns};
use std::alloc::{AllocError, Global};

/// Returns the number of structs of six places that hold all headers at the start of the bytes.
pub fn count_runs(start: IpNumber, packet: &[u8]) -> usize
    ensures exact { result ≡ length (runs_of start.0 packet.now) }
    ensures least { 1 ≤ result }
    ensures most { result ≤ length packet.now / 8 + 1 }
{
    Ipv6ExtensionsRuns::new(start, packet).count()
}

/// Returns the structs, in order.
pub fn list_runs(
    alloc: Global,
    start: IpNumber,
    packet: &[u8],
) -> Result<Vec<Ipv6Extensions>, AllocError>
    ensures { IfOk result (λ all. all.items ≡ map value_of (runs_of start.0 packet.now)) }
{
    Ipv6ExtensionsRuns::new(start, packet).collect(alloc)
}

/// Returns the sum of their lengths, and the number and the bytes after the last.
pub fn len_of_runs(start: IpNumber, packet: &[u8]) -> (usize, IpNumber, &[u8])
    ensures number { result.1.0 ≡ leads_to start.0 (longest_chain start.0 packet.now) }
    ensures rest { result.2.now ≡ rest_after (longest_chain start.0 packet.now) packet.now }
{
    let mut runs = Ipv6ExtensionsRuns::new(start, packet);
    let mut len: usize = 0;
    'runs: while let Some(exts) = runs.next() {
        len = len.saturating_add(exts.header_len());
    }
    match runs.end() {
        Some((number, rest, _)) => (len, number, rest),
        None => unreachable!(),
    }
}

/// Returns the sum of their lengths.
pub fn sum_of_runs(start: IpNumber, packet: &[u8]) -> usize {
    let mut len: usize = 0;
    for exts in Ipv6ExtensionsRuns::new(start, packet) {
        len = len.saturating_add(exts.header_len());
    }
    len
}

/// Returns the number to which the headers lead, from the last run on.
pub fn number_after_runs(runs: &Ipv6ExtensionsRuns<'_>) -> Option<IpNumber>
    ensures { IfSome result (λ number. number.0
        ≡ leads_to (start runs.now) (longest_chain (start runs.now) (input runs.now))) }
{
    match runs.end() {
        Some(_) => Some(runs.next_number()),
        None => None,
    }
}

/// Returns the number to which the next run leads, if there is one.
pub fn number_after_next_run(runs: &mut Ipv6ExtensionsRuns<'_>) -> Option<IpNumber>
    ensures { IfSome result (λ number. (run : List ExtHeader)
        × (runs_left runs.old ≡ run ∷ runs_left runs.new)
        × (number.0 ≡ leads_to (number_left runs.old) run)) }
{
    let _run = runs.next()?;
    Some(runs.next_number())
}

/// Passes over the next run, if there is one, and returns the number to which it leads.
pub fn number_after_skipped_run(runs: &mut Ipv6ExtensionsRuns<'_>) -> Option<IpNumber>
    ensures passed { IfSome result (λ number. (run : List ExtHeader)
        × (runs_left runs.old ≡ run ∷ runs_left runs.new)
        × (number.0 ≡ leads_to (number_left runs.old) run)) }
    ensures none { IfNone result (values_left runs.old ≡ []) }
    ensures same { IfNone result (runs.new ≡ runs.old) }
    ensures start { start runs.new ≡ start runs.old }
    ensures input { input runs.new ≡ input runs.old }
{
    if !runs.skip_run() {
        return None;
    }
    Some(runs.next_number())
}

/// Returns the number from which the first run is to be written.
pub fn number_of_first_run(start: IpNumber, packet: &[u8]) -> IpNumber
    ensures { result.0 ≡ start.0 }
{
    Ipv6ExtensionsRuns::new(start, packet).next_number()
}
