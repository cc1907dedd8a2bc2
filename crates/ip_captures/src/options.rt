//! The options of a block of pcapng (draft-ietf-opsawg-pcapng, section 3.5).
ghost use Rattle.std.specs.Prelude.{◌≡◌, ◌≤◌, length, None, Some, IfSome, IfOk, IfErr};
ghost use Rattle.std.specs.Option.{option_map};
ghost use Rattle.ip_captures.specs.Options.{option_len, option_value, options_error};

use crate::{BlockError, ByteOrder};

/// Returns the length of the option at the start of `bytes`, with its padding.
fn option_len(order: ByteOrder, bytes: &[u8]) -> Option<usize>
    ensures len { result ≡ option_len order bytes.now }
    ensures within { IfSome result (λ n. (4 ≤ n) × (n ≤ length bytes.now)) }
{
    if bytes.len() < 4 {
        return None;
    }
    let len = 4 + (usize::from(order.u16_at(bytes, 2)) + 3) / 4 * 4;
    if bytes.len() < len {
        return None;
    }
    Some(len)
}

/// Returns the value of the first option with a code, before the end of the options.
#[tactic(auto, using(crate::proofs::OptionLemmas::value_after, crate::proofs::OptionLemmas::value_ended, crate::proofs::OptionLemmas::value_here, crate::proofs::OptionLemmas::no_value))]
pub(crate) fn option_value(order: ByteOrder, code: u16, options: &[u8]) -> Option<&[u8]>
    ensures { option_map (λ v. v.now) result ≡ option_value order code options.now }
{
    let mut rest = options;
    'options: while let Some(len) = option_len(order, rest) {
        let found = order.u16_at(rest, 0);
        if found == 0 {
            return None;
        }
        if found == code {
            let value_len = usize::from(order.u16_at(rest, 2));
            return Some(&rest[4..4 + value_len]);
        }
        rest = rest.split_at(len).1;
    }
    None
}

/// Checks that each option of a block has the bytes that it states, up to the end of the options.
#[tactic(auto, using(crate::proofs::OptionLemmas::error_after, crate::proofs::OptionLemmas::error_ended, crate::proofs::OptionLemmas::error_left))]
pub(crate) fn check_options(order: ByteOrder, options: &[u8]) -> Result<(), BlockError>
    ensures right { IfOk result (λ _. options_error order options.now ≡ None) }
    ensures error { IfErr result (λ e. options_error order options.now ≡ Some e) }
{
    let mut rest = options;
    'options: while let Some(len) = option_len(order, rest) {
        let number = order.u16_at(rest, 0);
        if number == 0 {
            return Ok(());
        }
        rest = rest.split_at(len).1;
    }
    if rest.len() < 4 {
        return Ok(());
    }
    Err(BlockError::LongOption {
        len: order.u16_at(rest, 2),
        left: rest.len() - 4,
    })
}
