//! A program over etherparse's layer, as it is written with this library. `tests/diff/src/before.rs` has the original form.
ghost use Rattle.std.specs.Prelude.{◌≡◌};
ghost use Rattle.std.specs.Option.{option_map};
ghost use Rattle.ip_ext_chains.specs.ChainLimitedReadError.{len_of};

use etherparse_ip::err::ipv6_exts::{HeaderLimitedReadError, HeaderWriteError};
use etherparse_ip::err::{ChainSource, Layer, LenError};
use etherparse_ip::io::{LimitedReader, OverRead};
use etherparse_ip::{IpNumber, Ipv6Extensions, LenSource};
use std::alloc::Global;
use std::io::Read;

/// Reads the extension headers after an IPv6 header that states how many bytes follow it.
pub fn read<R: Read + Drop>(
    reader: R,
    first: IpNumber,
    payload_length: u16,
) -> Result<(Ipv6Extensions, IpNumber), HeaderLimitedReadError> {
    let mut limited = LimitedReader::new(
        OverRead::new(reader),
        payload_length.into(),
        LenSource::Ipv6HeaderPayloadLen,
        40,
        Layer::Ipv6ExtHeader,
    );
    Ipv6Extensions::read_limited(&mut limited, first)
}

/// Links the headers in the order of the standard, with `payload` after them. Returns the number of the first header,
/// and their bytes.
pub fn relinked(
    alloc: Global,
    headers: &Ipv6Extensions,
    payload: IpNumber,
) -> Result<(IpNumber, Vec<u8>), HeaderWriteError> {
    let mut linked = headers.clone().map_err(HeaderWriteError::Io)?;
    let first = linked.set_next_headers(payload);
    let mut out = Vec::with_capacity(alloc, linked.header_len()).map_err(HeaderWriteError::Io)?;
    linked.write(&mut out, first)?;
    Ok((first, out))
}

/// Returns how many bytes were missing and where, if that is why the headers weren't read.
pub fn missing_bytes(error: &HeaderLimitedReadError) -> Option<&LenError>
    ensures { option_map (λ e. e.now) result ≡ len_of error.now }
{
    match error.source() {
        Some(ChainSource::Len(e)) => Some(e),
        _ => None,
    }
}
