//! Payloads from their fragments.
ghost use Rattle.std.specs.Prelude.{◌≡◌, ◌+◌, ◌*◌, ◌<◌, ◌≤◌, ◌++◌, length};

use ip_base::IpFragOffset;
use ip_reassembly::Reassembly;

/// Reassembles a payload of two fragments, of which the last arrives first, and copies it.
pub fn last_fragment_first(
    buffer: &mut [u8],
    offset: IpFragOffset,
    first: &[u8],
    last: &[u8],
    payload: &mut [u8],
)
    requires some { 0 < length first.now }
    requires units { length first.now ≡ 8 * offset }
    requires room { length first.now + length last.now ≤ length buffer.old }
    requires short { length first.now + length last.now ≤ 65535 }
    requires size { length payload.old ≡ length first.now + length last.now }
    ensures { payload.new ≡ first.now ++ last.now }
{
    let start = IpFragOffset::try_new(0).unwrap();
    let mut reassembly = Reassembly::new(buffer);
    let _ = reassembly.add(offset, false, last);
    let _ = reassembly.add(start, true, first);
    match reassembly.payload() {
        Some(bytes) => payload.copy_from_slice(bytes),
        None => unreachable!(),
    }
}
