//! Capture files.
ghost use Rattle.std.specs.Prelude.{◌≡◌, ◌≢◌, ◌≤◌, ◌<◌, ◌+◌, drop, length, slice_index, false, IsTrue};
ghost use Rattle.ip_captures.specs.Numbers.{number_at};
ghost use Rattle.ip_captures.specs.ClassicHeader.{IsHeaderError};
ghost use Rattle.ip_captures.specs.PcapngNext.{offset_next};
ghost use Rattle.ip_captures.specs.ErrorFields.{error_fields, no_error};
ghost use Rattle.ip_captures.specs.RecordFields.{IsRecordOf};
ghost use Rattle.ip_captures.specs.CaptureFields.{section_in, section_then, IsBegunIn, IsNextOf, IsKept};
ghost use Rattle.ip_captures.specs.declared.byte_order.ByteOrder.TheVariants.{LittleEndian};
ghost use Rattle.ip_captures.specs.declared.err.CaptureError.{CaptureError};
ghost use Rattle.ip_captures.specs.declared.next.Next.{Next};

use crate::bytes::Bytes;
use ip_captures::{CaptureErrorFields, CaptureFields, RecordFields};
use ip_spans::display_text;

/// Calls `CaptureFields::begin`.
#[unsafe(no_mangle)]
pub extern "C" fn wolfaren_begin_capture(
    capture: &mut CaptureFields<'_>,
    bytes: Bytes<'_>,
    error: &mut CaptureErrorFields,
) -> bool
    ensures begun { IsTrue result → (24 ≤ length bytes.entry.slice.now) × IsBegunIn bytes.entry.slice.now capture.new }
    ensures short { length bytes.entry.slice.now < 24 → result ≡ false }
    ensures no_error { IsTrue result → error.new ≡ no_error }
    ensures short_error { length bytes.entry.slice.now < 24 → error.new ≡ no_error }
    ensures error { result ≡ false → 24 ≤ length bytes.entry.slice.now → (e : CaptureError) × IsHeaderError bytes.entry.slice.now e
        × (error.new ≡ error_fields e) × (number_at LittleEndian bytes.entry.slice.now 0 ≢ 0x0a0d_0d0a) }
    ensures kept { (capture.new.limit ≡ capture.old.limit)
        × (length capture.new.interfaces.now ≡ length capture.old.interfaces.now) }
    ensures same { result ≡ false → capture.new ≡ capture.old }
{
    capture.begin(bytes.slice(), error)
}

/// Calls `CaptureFields::next`.
#[unsafe(no_mangle)]
pub extern "C" fn wolfaren_next_record(
    capture: &mut CaptureFields<'_>,
    bytes: Bytes<'_>,
    fields: &mut RecordFields,
)
    ensures next { (x : Next) × IsNextOf capture.old bytes.entry.slice.now x × IsRecordOf bytes.entry.slice.now x fields.new
        × (section_in capture.new ≡ section_then capture.old bytes.entry.slice.now x)
        × (capture.new.offset ≡ offset_next capture.old.offset x) }
    ensures kept { IsKept capture.old capture.new }
{
    capture.next(bytes.slice(), fields);
}

/// Calls `display_text` with the error that has these fields.
#[unsafe(no_mangle)]
pub extern "C" fn wolfaren_capture_error_text(error: &CaptureErrorFields, text: &mut [u8]) -> usize
    ensures most { result ≤ 255 }
    ensures end { result < length text.old → slice_index text.new result ≡ 0 }
    ensures after { drop (result + 1) text.new ≡ drop (result + 1) text.old }
    ensures refused { length text.old ≤ result → text.new ≡ text.old }
    ensures len { length text.new ≡ length text.old }
{
    display_text(&error.error(), text)
}
