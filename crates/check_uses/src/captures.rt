//! Callers of `ip_captures`.
ghost use Rattle.std.specs.Prelude.{◌≡◌, ℕ, take, drop, IfSome};
ghost use Rattle.ip_captures.specs.ClassicRecord.{IsRecord, header_len};
ghost use Rattle.ip_captures.specs.CaptureFields.{IsNextOf};
ghost use Rattle.ip_captures.specs.declared.frame.Frame.{Frame as IsFrame};
ghost use Rattle.ip_captures.specs.declared.next.Next.TheVariants as IsNextThing;

use ip_captures::{CaptureFields, ClassicCapture, Next, RecordFields};

/// Returns the captured bytes of the next frame of a classic file, and moves past it. Returns `None` if there is none.
pub fn next_captured<'a>(capture: &mut ClassicCapture, bytes: &'a [u8]) -> Option<&'a [u8]>
    ensures { IfSome result (λ captured. (k : ℕ) × IsRecord capture.old.limit capture.old.header (take k bytes.now)
        × (captured.now ≡ drop (header_len capture.old.header.variant) (take k bytes.now))) }
{
    match capture.next(bytes) {
        Next::Frame(frame) => Some(frame.captured),
        _ => None,
    }
}

/// Returns the captured bytes of the next frame of a capture by its fields in plain numbers, as C does, and moves past it. Returns
/// `None` if there is none.
pub fn next_captured_in_numbers<'a>(
    capture: &mut CaptureFields<'_>,
    record: &mut RecordFields,
    bytes: &'a [u8],
) -> Option<&'a [u8]>
    ensures { IfSome result (λ captured. (f : IsFrame) × IsNextOf capture.old bytes.now (IsNextThing.Frame f) × (captured.now ≡ f.captured.now)) }
{
    capture.next(bytes, record);
    if record.kind != 0 {
        return None;
    }
    bytes.get(record.offset..)?.get(..record.len)
}
