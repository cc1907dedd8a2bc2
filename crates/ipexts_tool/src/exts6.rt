//! The answer to `exts6 N HEX`.
ghost use Rattle.std.specs.Prelude.{OnOk};
ghost use Rattle.ipexts_tool.specs.Text.{AppendsText};
ghost use Rattle.ipexts_tool.specs.Exts6.{exts6_answer};

use crate::parts::{push_chain_end, push_header, push_next};
use etherparse_ip::{IpNumber, Ipv6ExtensionsCursor};
use std::alloc::{AllocError, Allocator};

/// Appends a line for each IPv6 extension header from `number` at the start of `bytes`, then what follows them and the
/// end of the chain.
pub fn push_exts6<A: Allocator>(
    number: IpNumber,
    bytes: &[u8],
    text: &mut String<A>,
) -> Result<(), AllocError>
    ensures { OnOk result (AppendsText text.old text.new (exts6_answer number.0 bytes.now)) }
{
    let mut headers = Ipv6ExtensionsCursor::new(number, bytes);
    let mut offset = 0;
    'headers: while let Some(header) = headers.next() {
        let len = header.slice().len();
        push_header(offset, header.number(), len, text)?;
        offset += len;
    }
    match headers.end() {
        Some((next, rest, fault)) => {
            push_next(next, rest.len(), text)?;
            push_chain_end(fault, text)
        }
        None => unreachable!(),
    }
}
