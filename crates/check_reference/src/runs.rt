//! The runs of a chain, written one after the other by the library.
ghost use Rattle.std.specs.Prelude.{◌≡◌, length, IfOk};
ghost use Rattle.ip_spec.specs.Chain.{bytes_of};
ghost use Rattle.ip_spec.specs.Encoding.{cleared_chain};
ghost use Rattle.ip_ext_slices.specs.Longest.{longest_chain};
ghost use Rattle.ip_ext_chains.specs.RunsOf.{runs_of};

use ip_base::IpNumber;
use ip_ext_chains::Ipv6ExtensionsRuns;
use std::alloc::{AllocError, Global};

/// Writes the runs of the chain at the start of the bytes, one after the other: each header, with its reserved bits
/// zero. Returns the number of structs and the bytes written.
pub(crate) fn write_runs(
    alloc: Global,
    start: IpNumber,
    packet: &[u8],
) -> Result<(usize, Vec<u8>), AllocError>
    ensures count { IfOk result (λ x. x.0 ≡ length (runs_of start.0 packet.now)) }
    ensures written { IfOk result (λ x.
        x.1.items ≡ bytes_of (cleared_chain (longest_chain start.0 packet.now))) }
{
    let _len = packet.len();
    let mut runs = Ipv6ExtensionsRuns::new(start, packet);
    let mut written = Vec::new(alloc);
    let mut next = runs.next_number();
    let mut count: usize = 0;
    'runs: while let Some(run) = runs.next() {
        if let Err(refused) = run.write(&mut written, next) {
            return Err(*refused.io().unwrap());
        }
        next = runs.next_number();
        count += 1;
    }
    Ok((count, written))
}
