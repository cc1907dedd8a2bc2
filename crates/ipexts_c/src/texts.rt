//! What became of packets, as text.
ghost use Rattle.std.specs.Prelude.{◌≡◌, ◌≤◌, ◌<◌, ◌+◌, drop, length, slice_index};

use crate::rewrites::refusal_with_code;
use ip_defragmenter::{LossReason, Outcome};
use ip_spans::display_text;

/// Calls `display_text` with the outcome that has this code.
#[unsafe(no_mangle)]
pub extern "C" fn wolfaren_outcome_text(outcome: u8, text: &mut [u8]) -> usize
    ensures most { result ≤ 255 }
    ensures end { result < length text.old → slice_index text.new result ≡ 0 }
    ensures after { drop (result + 1) text.new ≡ drop (result + 1) text.old }
    ensures refused { length text.old ≤ result → text.new ≡ text.old }
    ensures len { length text.new ≡ length text.old }
{
    display_text(&Outcome::with_code(outcome), text)
}

/// Calls `display_text` with the reason for a loss that has this code.
#[unsafe(no_mangle)]
pub extern "C" fn wolfaren_loss_text(loss: u8, text: &mut [u8]) -> usize
    ensures most { result ≤ 255 }
    ensures end { result < length text.old → slice_index text.new result ≡ 0 }
    ensures after { drop (result + 1) text.new ≡ drop (result + 1) text.old }
    ensures refused { length text.old ≤ result → text.new ≡ text.old }
    ensures len { length text.new ≡ length text.old }
{
    display_text(&LossReason::with_code(loss), text)
}

/// Calls `display_text` with the reason for which a packet isn't rewritten that has this code.
#[unsafe(no_mangle)]
pub extern "C" fn wolfaren_refusal_text(refusal: u8, text: &mut [u8]) -> usize
    ensures most { result ≤ 255 }
    ensures end { result < length text.old → slice_index text.new result ≡ 0 }
    ensures after { drop (result + 1) text.new ≡ drop (result + 1) text.old }
    ensures refused { length text.old ≤ result → text.new ≡ text.old }
    ensures len { length text.new ≡ length text.old }
{
    display_text(&refusal_with_code(refusal), text)
}
