//! Callers of the base layer and of the plain program.
ghost use Rattle.std.specs.Prelude.{◌≡◌, ◌≤◌, ◌<◌, ◌+◌, ◌^◌, length, take, IfOk, IfErr, IfSome};
ghost use Rattle.ip_spec.specs.Header.{IsHeader};
ghost use Rattle.ip_base.specs.Fragment.{MAX_FRAGMENT_OFFSET};

use ip_base::IpFragOffset;
use ip_base::err::{LenError, ValueTooBigError};

/// Returns the offset in a packet of an error in what follows its header.
pub fn offset_in_packet(error: LenError, header_len: usize) -> usize
    requires { error.layer_start_offset + header_len < 2 ^ 64 }
    ensures { result ≡ error.layer_start_offset + header_len }
{
    error.add_offset(header_len).layer_start_offset
}

/// Returns the offset of a fragment that starts so many bytes after the payload's start, rounded down.
pub fn offset_of_bytes(bytes: u16) -> Result<IpFragOffset, ValueTooBigError>
    ensures fits { IfOk result (λ offset. offset ≤ MAX_FRAGMENT_OFFSET) }
    ensures refused { IfErr result (λ e. MAX_FRAGMENT_OFFSET < e.actual) }
{
    (bytes / 8).try_into()
}

/// Returns the length of the first header in bytes.
pub fn first_header_len(number: u8, packet: &[u8]) -> Option<usize>
    ensures { IfSome result (λ len. (len ≤ length packet.now)
        × IsHeader number (take len packet.now)) }
{
    check_reference::next_len(true, number, packet)
}
