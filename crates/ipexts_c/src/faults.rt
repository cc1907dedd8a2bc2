//! Errors as text.
ghost use Rattle.std.specs.Prelude.{◌≡◌, ◌≤◌, ◌<◌, ◌+◌, drop, length, slice_index};

use ip_spans::{FaultFields, fault_text};

/// Calls `fault_text`.
#[unsafe(no_mangle)]
pub extern "C" fn wolfaren_fault_text(fault: &FaultFields, text: &mut [u8]) -> usize
    ensures most { result ≤ 255 }
    ensures end { result < length text.old → slice_index text.new result ≡ 0 }
    ensures after { drop (result + 1) text.new ≡ drop (result + 1) text.old }
    ensures refused { length text.old ≤ result → text.new ≡ text.old }
    ensures len { length text.new ≡ length text.old }
{
    fault_text(fault, text)
}
