//! Where truncated headers and faults are counted.
ghost use Rattle.std.specs.Prelude.{◌≡◌};
ghost use Rattle.ip_statistics.specs.Packet.{faulty_layer, fault_index};

use ip_codes::{end_layer, error_kind_of, header_code_of};
use ip_dissect::End;

/// Returns the code of the header or packet that is truncated or faulty, and 0 if none is.
#[inline(always)]
pub(crate) fn layer_code_at(end: &End) -> u8
    ensures { result ≡ faulty_layer end.now }
{
    header_code_of(end_layer(end))
}

/// Returns the index of a fault's count.
#[inline(always)]
pub(crate) fn index_of(end: &End) -> usize
    ensures { result ≡ fault_index end.now }
{
    match end {
        End::Fault { error, .. } => {
            16 * usize::from(error_kind_of(error)) + usize::from(layer_code_at(end))
        }
        _ => 0,
    }
}
