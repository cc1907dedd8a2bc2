//! The extension headers of an IPv4 packet, found in the simplest way.
ghost use Rattle.std.specs.Prelude.{◌≤◌, IfOk, length};
ghost use Rattle.check_reference.specs.PlainDissection.{IsIpv4Chain};

use crate::chain::{PlainChain, PlainHeader, next_len};
use crate::plain_base::ipv4_offset;
use std::alloc::{AllocError, Global};

/// Returns the extension headers in the bytes after an IPv4 base header. A later fragment has none. Returns an error
/// only if memory runs out.
pub(crate) fn plain_ipv4_chain<'a>(
    alloc: Global,
    base: &[u8],
    after: &'a [u8],
) -> Result<PlainChain<'a>, AllocError>
    requires { 20 ≤ length base.now }
    ensures { IfOk result (IsIpv4Chain base.now after.now) }
{
    let mut headers = Vec::new(alloc);
    let number = base[9];
    if ipv4_offset(base) != 0 {
        return Ok(PlainChain {
            headers,
            number,
            rest: after,
        });
    }
    if number != 51 {
        return Ok(PlainChain {
            headers,
            number,
            rest: after,
        });
    }
    let Some(len) = next_len(true, 51, after) else {
        return Ok(PlainChain {
            headers,
            number,
            rest: after,
        });
    };
    let (header, rest) = after.split_at(len);
    headers.push(PlainHeader {
        number,
        bytes: header,
    })?;
    Ok(PlainChain {
        headers,
        number: header[0],
        rest,
    })
}
