//! The answer to `rewriteall6 N HEX`.
ghost use Rattle.std.specs.Prelude.{OnOk};
ghost use Rattle.ipexts_tool.specs.Text.{AppendsText};
ghost use Rattle.ipexts_tool.specs.RewriteAll6.{rewriteall6_answer};

use crate::parts::{push_chain_end, push_next, push_written};
use etherparse_ip::{IpNumber, Ipv6ExtensionsRuns, Ipv6ExtensionsSlice};
use std::alloc::{AllocError, Allocator};

/// Appends the number of structs of six places for the headers from `number` at the start of `bytes`, and the headers
/// as the structs would write them, one after the other. They are parsed once, and then counted and cleared in a copy
/// of these bytes, without the structs.
pub fn push_rewriteall6<A: Allocator + Copy>(
    alloc: A,
    number: IpNumber,
    bytes: &[u8],
    text: &mut String<A>,
) -> Result<(), AllocError>
    ensures { OnOk result (AppendsText text.old text.new (rewriteall6_answer number.0 bytes.now)) }
{
    let (headers, next, rest, fault) = Ipv6ExtensionsSlice::from_slice_lax(number, bytes);
    let mut written = Vec::from_slice(alloc, headers.slice())?;
    let runs = Ipv6ExtensionsRuns::from_headers(headers, next);
    let count = runs.clear_runs(written.as_mut_slice());
    write!(text, "runs {count} ")?;
    push_next(next, rest.len(), text)?;
    push_written(alloc, written.as_slice(), text)?;
    push_chain_end(fault, text)
}
