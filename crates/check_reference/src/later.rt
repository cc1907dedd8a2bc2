//! The longest chain to a later fragment's header, computed in the simplest way.
ghost use Rattle.std.specs.Prelude.{IfOk};
ghost use Rattle.check_reference.specs.PlainDissection.{IsToLater};

use crate::chain::{PlainChain, PlainHeader, next_len};
use crate::plain_fragment::is_later;
use std::alloc::{AllocError, Global};

/// Returns the longest chain in which no header follows that of a later fragment. Returns an error only if memory
/// runs out.
pub(crate) fn plain_chain_to_later<'a>(
    alloc: Global,
    start: u8,
    bytes: &'a [u8],
) -> Result<PlainChain<'a>, AllocError>
    ensures { IfOk result (IsToLater start bytes.now) }
{
    let mut headers = Vec::new(alloc);
    let mut number = start;
    let mut rest = bytes;
    'headers: while let Some(len) = next_len(headers.is_empty(), number, rest) {
        let (header, after) = rest.split_at(len);
        headers.push(PlainHeader {
            number,
            bytes: header,
        })?;
        if is_later(number, header) {
            return Ok(PlainChain {
                headers,
                number: header[0],
                rest: after,
            });
        }
        number = header[0];
        rest = after;
    }
    Ok(PlainChain {
        headers,
        number,
        rest,
    })
}
