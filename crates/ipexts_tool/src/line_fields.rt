//! The fields of a line, and the numbers and bytes that they denote.
ghost use Rattle.std.specs.Prelude.{◌≡◌, ◌==◌, ◌<◌, ◌≤◌, [], length};
ghost use Rattle.std.specs.Option.{option_map};
ghost use Rattle.ipexts_tool.specs.Lines.{max_line_len};
ghost use Rattle.ipexts_tool.specs.LineFields.{spaced_fields, decimal_of, bytes_of_hex, number_and_bytes, bytes_alone};

use crate::hex_digits::decode;
use crate::search::split_once;
use etherparse_ip::IpNumber;

/// The longest line that is a request, in bytes.
pub const MAX_LINE_LEN: usize = 8192;

/// The most bytes that the digits of one line can denote.
pub const BYTES_LEN: usize = MAX_LINE_LEN / 2;

/// Parses a decimal numeral of a number below 256.
#[tactic(auto, using(crate::proofs::NumberLemmas::numbers))]
fn parse_number(text: &[u8]) -> Option<u8>
    ensures { result ≡ decimal_of text.now }
{
    if text.is_empty() {
        return None;
    }
    if text[0] == b'0' && text.len() > 1 {
        return None;
    }
    let mut number = 0u8;
    for byte in text {
        if !byte.is_ascii_digit() {
            return None;
        }
        number = number.checked_mul(10)?.checked_add(*byte - b'0')?;
    }
    Some(number)
}

/// Parses hexadecimal digits, and stores the bytes in `buffer`.
fn parse_hex<'a>(text: &[u8], buffer: &'a mut [u8; BYTES_LEN]) -> Option<&'a [u8]>
    requires { length text.now ≤ max_line_len }
    ensures { option_map (λ bytes. bytes.now) result ≡ bytes_of_hex text.now }
{
    if text == b"-".as_slice() {
        return Some(&[]);
    }
    if text.len() < 2 {
        return None;
    }
    let len = text.len() / 2;
    let bytes = &mut buffer[..len];
    if text.len() % 2 != 0 || !decode(text, bytes) {
        return None;
    }
    Some(bytes)
}

/// Parses `N HEX`.
pub fn parse_number_and_hex<'a>(
    text: &[u8],
    buffer: &'a mut [u8; BYTES_LEN],
) -> Option<(IpNumber, &'a [u8])>
    requires { length text.now ≤ max_line_len }
    ensures { option_map (λ read. (read.0.0, read.1.now)) result
        ≡ number_and_bytes (spaced_fields text.now) }
{
    let (number, hex) = split_once(text, b' ')?;
    let number = parse_number(number)?;
    let bytes = parse_hex(hex, buffer)?;
    Some((IpNumber(number), bytes))
}

/// Parses `HEX`.
#[tactic(auto, using(crate::proofs::LineFieldLemmas::whole_field))]
pub fn parse_hex_alone<'a>(text: &[u8], buffer: &'a mut [u8; BYTES_LEN]) -> Option<&'a [u8]>
    requires { length text.now ≤ max_line_len }
    ensures { option_map (λ bytes. bytes.now) result ≡ bytes_alone (spaced_fields text.now) }
{
    parse_hex(text, buffer)
}
