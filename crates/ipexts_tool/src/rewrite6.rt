//! The answer to `rewrite6 N HEX`.
ghost use Rattle.std.specs.Prelude.{OnOk};
ghost use Rattle.ipexts_tool.specs.Text.{AppendsText};
ghost use Rattle.ipexts_tool.specs.Rewrite6.{rewrite6_answer};

use crate::parts::{push_chain_end, push_next, push_written};
use etherparse_ip::{IpNumber, clear_chain, fitting_headers};
use std::alloc::{AllocError, Allocator};

/// Appends the headers from `number` at the start of `bytes` that fit six places, as they are written. They are
/// cleared in a copy of these bytes, without a struct of six places.
pub fn push_rewrite6<A: Allocator + Copy>(
    alloc: A,
    number: IpNumber,
    bytes: &[u8],
    text: &mut String<A>,
) -> Result<(), AllocError>
    ensures { OnOk result (AppendsText text.old text.new (rewrite6_answer number.0 bytes.now)) }
{
    let (headers, next, rest, fault) = fitting_headers(number, bytes);
    let mut written = Vec::from_slice(alloc, headers.slice())?;
    clear_chain(&headers, written.as_mut_slice());
    push_next(next, rest.len(), text)?;
    push_written(alloc, written.as_slice(), text)?;
    push_chain_end(fault, text)
}
