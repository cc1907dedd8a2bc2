//! The answer to `exts4 N HEX`.
ghost use Rattle.std.specs.Prelude.{OnOk};
ghost use Rattle.ipexts_tool.specs.Text.{AppendsText};
ghost use Rattle.ipexts_tool.specs.Exts4.{exts4_answer};

use crate::parts::{push_authentication, push_ipv4_end, push_next};
use etherparse_ip::{IpNumber, Ipv4ExtensionsSlice};
use std::alloc::{AllocError, Allocator};

/// Appends the answer for `bytes` as IPv4 extension headers from `number`.
pub fn push_exts4<A: Allocator>(
    number: IpNumber,
    bytes: &[u8],
    text: &mut String<A>,
) -> Result<(), AllocError>
    ensures { OnOk result (AppendsText text.old text.new (exts4_answer number.0 bytes.now)) }
{
    let (headers, next, rest, fault) = Ipv4ExtensionsSlice::from_slice_lax(number, bytes);
    push_authentication(headers.auth, 0, text)?;
    push_next(next, rest.len(), text)?;
    push_ipv4_end(fault, text)
}
