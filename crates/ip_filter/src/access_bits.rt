//! What follows the first word of an access: a mask or nothing, a comparison, and what is compared with.
#![tactic(auto, using(crate::proofs::ArgumentLemmas::end_of_text, crate::proofs::ArgumentLemmas::other_word, crate::proofs::ArgumentLemmas::this_word))]

ghost use Rattle.std.specs.Prelude.{◌≡◌, [], ◌∷◌, ℕ, take, codes, IfOk, IfErr, IfSome, IfNone};
ghost use Rattle.ip_filter.specs.declared.parse_error.Expected.TheVariants as expects;
ghost use Rattle.ip_filter.specs.Words.{words};
ghost use Rattle.ip_filter.specs.AccessWords.{tcp_bit_of, bits_of, ends_joined_bits, joined_bits, bits_at, number_compared_at, compared_at, compared_bits_at};
ghost use Rattle.ip_filter.specs.Numbers.{comparison_of};
ghost use Rattle.ip_filter.specs.Grammar.{Finds};
ghost use Rattle.ip_filter.specs.Reading.{ReadsArgument, RefusesArgument, IsAccess, EndMask, LastIs, WantBits, WantJoinedBits, ReadsAt, RefusesAt, BeginsAnd, ReadsJoined};

use crate::arguments::{Unexpected, argument, read_comparison};
use crate::icmp_types::{parse_icmp_type, parse_icmp6_type};
use crate::numbers::{parse_comparison, parse_long};
use crate::words::first_word;
use crate::{ComparedBits, Comparison, Expected};

/// All bits, and the largest number.
const ALL_BITS: u32 = 4_294_967_295;

/// What was read of a text, and the text after it.
type Read<'a, T> = Result<(T, &'a [u8]), Unexpected>;

/// Reads how the bytes of an access are compared.
#[tactic(auto, using(crate::proofs::AccessLemmas::no_mask_bits, crate::proofs::AccessLemmas::with_mask_read, crate::proofs::AccessLemmas::with_mask_refused))]
pub(crate) fn read_compared_bits(text: &[u8]) -> Read<'_, ComparedBits>
    ensures ok { IfOk result (λ r. ReadsAt compared_bits_at text.now r.0 r.1.now) }
    ensures err { IfErr result (λ e. RefusesAt compared_bits_at (LastIs IsAccess) text.now e.left e.expected) }
{
    match after_and(text) {
        Some(rest) => match read_bits(rest) {
            Ok((mask, rest)) => match read_masked(mask, rest) {
                Ok(read) => Ok(read),
                Err(error) => Err(error),
            },
            Err(error) => Err(error),
        },
        None => read_unmasked(text),
    }
}

/// Returns the text after `&`, if the text begins with it.
fn after_and(text: &[u8]) -> Option<&[u8]>
    ensures some { IfSome result (λ rest. BeginsAnd text.now rest.now) }
    ensures none { IfNone result (take 1 (words text.now) ≡ codes "&" ∷ [] → ⊥) }
{
    match first_word(text) {
        Some(word) => {
            if word.bytes == b"&".as_slice() {
                Some(word.rest)
            } else {
                None
            }
        }
        None => None,
    }
}

/// Reads a comparison and what all bits are compared with.
#[tactic(auto, using(crate::proofs::AccessLemmas::no_comparison_or_mask, crate::proofs::AccessLemmas::unmasked_read, crate::proofs::AccessLemmas::unmasked_refused))]
fn read_unmasked(text: &[u8]) -> Read<'_, ComparedBits>
    ensures ok { IfOk result (λ r. (take 1 (words text.now) ≡ codes "&" ∷ [] → ⊥)
        → ReadsAt compared_bits_at text.now r.0 r.1.now) }
    ensures err { IfErr result (λ e. (take 1 (words text.now) ≡ codes "&" ∷ [] → ⊥)
        → RefusesAt compared_bits_at (LastIs IsAccess) text.now e.left e.expected) }
{
    match read_first_comparison(text) {
        Ok((comparison, rest)) => match read_compared(ALL_BITS, comparison, rest) {
            Ok(read) => Ok(read),
            Err(error) => Err(error),
        },
        Err(error) => Err(error),
    }
}

/// Reads a comparison where a mask might have preceded it.
fn read_first_comparison(text: &[u8]) -> Read<'_, Comparison>
    ensures ok { IfOk result (λ r. ReadsArgument (Finds comparison_of) text.now r.0 r.1.now) }
    ensures err { IfErr result (λ e. RefusesArgument (Finds comparison_of) text.now e.left
        × (e.expected ≡ expects.MaskOrComparison)) }
{
    let word = argument(text, Expected::MaskOrComparison)?;
    match parse_comparison(word.bytes) {
        Some(comparison) => Ok((comparison, word.rest)),
        None => Err(word.unexpected(Expected::MaskOrComparison)),
    }
}

/// Reads a comparison and what the bits that the mask selects are compared with.
#[tactic(auto, using(crate::proofs::AccessLemmas::masked_missing, crate::proofs::AccessLemmas::masked_read, crate::proofs::AccessLemmas::masked_refused))]
fn read_masked(mask: u32, text: &[u8]) -> Read<'_, ComparedBits>
    ensures ok { IfOk result (λ r. ReadsAt (compared_at mask) text.now r.0 r.1.now) }
    ensures err { IfErr result (λ e. RefusesAt (compared_at mask) EndMask text.now e.left e.expected) }
{
    match read_comparison(text) {
        Ok((comparison, rest)) => match read_compared(mask, comparison, rest) {
            Ok(read) => Ok(read),
            Err(error) => Err(error),
        },
        Err(error) => Err(error),
    }
}

/// Reads what the bits that the mask selects are compared with.
#[tactic(auto, using(crate::proofs::AccessLemmas::number_read, crate::proofs::AccessLemmas::number_refused))]
fn read_compared(mask: u32, comparison: Comparison, text: &[u8]) -> Read<'_, ComparedBits>
    ensures ok { IfOk result (λ r. ReadsAt (number_compared_at mask comparison) text.now r.0 r.1.now) }
    ensures err { IfErr result (λ e. RefusesAt (number_compared_at mask comparison) WantBits text.now
        e.left e.expected) }
{
    match read_bits(text) {
        Ok((number, rest)) => Ok((
            ComparedBits {
                mask,
                comparison,
                number,
            },
            rest,
        )),
        Err(error) => Err(error),
    }
}

/// Reads bits: a name or a number, or several in parentheses.
#[tactic(auto, using(crate::proofs::AccessLemmas::several_bits, crate::proofs::AccessLemmas::several_refused, crate::proofs::AccessLemmas::one_bits, crate::proofs::AccessLemmas::no_bits))]
fn read_bits(text: &[u8]) -> Read<'_, u32>
    ensures ok { IfOk result (λ r. ReadsAt bits_at text.now r.0 r.1.now) }
    ensures err { IfErr result (λ e. RefusesAt bits_at WantBits text.now e.left e.expected) }
{
    match argument(text, Expected::Bits) {
        Ok(word) => {
            if word.bytes == b"(".as_slice() {
                return match read_joined_bits(word.rest) {
                    Ok(read) => Ok(read),
                    Err(error) => Err(error),
                };
            }
            match parse_bits(word.bytes) {
                Some(bits) => Ok((bits, word.rest)),
                None => Err(word.unexpected(Expected::Bits)),
            }
        }
        Err(error) => Err(error),
    }
}

/// Reads names and numbers with `|` between them, and the parenthesis after them.
#[tactic(auto, using(crate::proofs::AccessLemmas::none_so_far, crate::proofs::AccessLemmas::joined_go_on, crate::proofs::AccessLemmas::joined_end, crate::proofs::AccessLemmas::fewer_left, crate::proofs::AccessLemmas::joined_refused))]
fn read_joined_bits(text: &[u8]) -> Read<'_, u32>
    ensures ok { IfOk result (λ r. ReadsAt (joined_bits 0) text.now r.0 r.1.now) }
    ensures err { IfErr result (λ e. RefusesAt (joined_bits 0) WantJoinedBits text.now e.left e.expected) }
{
    let mut bits = 0;
    let mut rest = text;
    'names: loop {
        match read_joined(rest) {
            Ok(((number, ends), after)) => {
                bits |= number;
                if ends {
                    return Ok((bits, after));
                }
                rest = after;
            }
            Err(error) => return Err(error),
        }
    }
}

/// Reads one of several bits, and the word after it, and returns whether that ends them.
#[tactic(auto, using(crate::proofs::AccessLemmas::joined_sign, crate::proofs::AccessLemmas::no_sign, crate::proofs::AccessLemmas::no_joined_bit))]
fn read_joined(text: &[u8]) -> Read<'_, (u32, bool)>
    ensures ok { IfOk result (λ r. ReadsJoined text.now r.0.0 r.0.1 r.1.now) }
    ensures err { IfErr result (λ e. (f : ℕ) → RefusesAt (joined_bits f) WantJoinedBits text.now
        e.left e.expected) }
{
    match read_joined_name(text) {
        Ok((number, rest)) => match read_joined_sign(rest) {
            Ok((ends, after)) => Ok(((number, ends), after)),
            Err(error) => Err(error),
        },
        Err(error) => Err(error),
    }
}

/// Reads the name or the number of one of several bits.
fn read_joined_name(text: &[u8]) -> Read<'_, u32>
    ensures ok { IfOk result (λ r. ReadsArgument (Finds bits_of) text.now r.0 r.1.now) }
    ensures err { IfErr result (λ e. RefusesArgument (Finds bits_of) text.now e.left
        × (e.expected ≡ expects.JoinedBits)) }
{
    let word = argument(text, Expected::JoinedBits)?;
    match parse_bits(word.bytes) {
        Some(bits) => Ok((bits, word.rest)),
        None => Err(word.unexpected(Expected::JoinedBits)),
    }
}

/// Reads the word after one of several bits.
fn read_joined_sign(text: &[u8]) -> Read<'_, bool>
    ensures ok { IfOk result (λ r. ReadsArgument (Finds ends_joined_bits) text.now r.0 r.1.now) }
    ensures err { IfErr result (λ e. RefusesArgument (Finds ends_joined_bits) text.now e.left
        × (e.expected ≡ expects.JoinedBitsEnd)) }
{
    let word = argument(text, Expected::JoinedBitsEnd)?;
    match ends_joined_bits(word.bytes) {
        Some(ends) => Ok((ends, word.rest)),
        None => Err(word.unexpected(Expected::JoinedBitsEnd)),
    }
}

/// Returns whether the word after one of several bits ends them.
fn ends_joined_bits(word: &[u8]) -> Option<bool>
    ensures { result ≡ ends_joined_bits word.now }
{
    if word == b")".as_slice() {
        return Some(true);
    }
    if word == b"|".as_slice() {
        return Some(false);
    }
    None
}

/// Returns the number that the word writes or whose name it is.
fn parse_bits(word: &[u8]) -> Option<u32>
    ensures { result ≡ bits_of word.now }
{
    if let Some(bit) = tcp_bit_of(word) {
        return Some(bit);
    }
    if let Some(number) = parse_icmp_type(word) {
        return Some(u32::from(number));
    }
    if let Some(number) = parse_icmp6_type(word) {
        return Some(u32::from(number));
    }
    parse_long(word)
}

/// Returns the bit of the flag of TCP that the word names.
fn tcp_bit_of(word: &[u8]) -> Option<u32>
    ensures { result ≡ tcp_bit_of word.now }
{
    if word == b"tcp-fin".as_slice() {
        return Some(1);
    }
    if word == b"tcp-syn".as_slice() {
        return Some(2);
    }
    if word == b"tcp-rst".as_slice() {
        return Some(4);
    }
    if word == b"tcp-push".as_slice() {
        return Some(8);
    }
    if word == b"tcp-ack".as_slice() {
        return Some(16);
    }
    if word == b"tcp-urg".as_slice() {
        return Some(32);
    }
    if word == b"tcp-ece".as_slice() {
        return Some(64);
    }
    if word == b"tcp-cwr".as_slice() {
        return Some(128);
    }
    None
}
