//! The words after the keyword of a term.
#![tactic(auto, using(crate::proofs::ArgumentLemmas::end_of_text, crate::proofs::ArgumentLemmas::other_word, crate::proofs::ArgumentLemmas::this_word))]

ghost use Rattle.std.specs.Prelude.{◌≡◌, [], IfOk, IfErr};
ghost use Rattle.ip_filter.specs.declared.parse_error.Expected.TheVariants as expects;
ghost use Rattle.ip_filter.specs.Words.{words};
ghost use Rattle.ip_filter.specs.Numbers.{number_up_to, version_named, header_named, protocol_of, comparison_of, tcp_flags_of};
ghost use Rattle.ip_filter.specs.IcmpTypes.{icmp_type_of, icmp6_type_of};
ghost use Rattle.ip_filter.specs.Grammar.{Finds};
ghost use Rattle.ip_filter.specs.Reading.{IsPlace, IsFirstWord, ReadsArgument, RefusesArgument};

use crate::icmp_types::{parse_icmp_type, parse_icmp6_type};
use crate::numbers::{parse_comparison, parse_header, parse_number, parse_protocol, parse_version};
use crate::tcp_flags::parse_tcp_flags;
use crate::words::{Word, first_word};
use crate::{Comparison, Expected, TcpFlags};

/// What is wrong in a text.
#[derive(Clone, Copy)]
pub(crate) struct Unexpected {
    /// How many bytes there are from the word that isn't expected to the end of the text; 0 if a word is missing.
    pub left: usize,
    /// What is expected there.
    pub expected: Expected,
}

impl Word<'_> {
    /// Returns the error that something else is expected in place of this word.
    pub(crate) fn unexpected(&self, expected: Expected) -> Unexpected
        ensures { result ≡ record { left = self.now.left; expected = expected } }
    {
        Unexpected {
            left: self.left,
            expected,
        }
    }
}

/// Returns the first word of a text, or the error that it is missing at the end.
pub(crate) fn argument(text: &[u8], expected: Expected) -> Result<Word<'_>, Unexpected>
    ensures ok { IfOk result (IsFirstWord text.now) }
    ensures err { IfErr result (λ e. (words text.now ≡ []) × IsPlace text.now [] e.left
        × (e.expected ≡ expected)) }
{
    match first_word(text) {
        Some(word) => Ok(word),
        None => Err(Unexpected { left: 0, expected }),
    }
}

/// Reads an IP version.
pub(crate) fn read_version(text: &[u8]) -> Result<(u8, &[u8]), Unexpected>
    ensures ok { IfOk result (λ r. ReadsArgument (Finds version_named) text.now r.0 r.1.now) }
    ensures err { IfErr result (λ e. RefusesArgument (Finds version_named) text.now e.left
        × (e.expected ≡ expects.Version)) }
{
    let word = argument(text, Expected::Version)?;
    match parse_version(word.bytes) {
        Some(version) => Ok((version, word.rest)),
        None => Err(word.unexpected(Expected::Version)),
    }
}

/// Reads the name or number of an extension header.
pub(crate) fn read_header(text: &[u8]) -> Result<(u8, &[u8]), Unexpected>
    ensures ok { IfOk result (λ r. ReadsArgument (Finds header_named) text.now r.0 r.1.now) }
    ensures err { IfErr result (λ e. RefusesArgument (Finds header_named) text.now e.left
        × (e.expected ≡ expects.Header)) }
{
    let word = argument(text, Expected::Header)?;
    match parse_header(word.bytes) {
        Some(number) => Ok((number, word.rest)),
        None => Err(word.unexpected(Expected::Header)),
    }
}

/// Reads the name or number of a protocol.
pub(crate) fn read_protocol(text: &[u8]) -> Result<(u8, &[u8]), Unexpected>
    ensures ok { IfOk result (λ r. ReadsArgument (Finds protocol_of) text.now r.0 r.1.now) }
    ensures err { IfErr result (λ e. RefusesArgument (Finds protocol_of) text.now e.left
        × (e.expected ≡ expects.Protocol)) }
{
    let word = argument(text, Expected::Protocol)?;
    match parse_protocol(word.bytes) {
        Some(number) => Ok((number, word.rest)),
        None => Err(word.unexpected(Expected::Protocol)),
    }
}

/// Reads a number of at most `most`.
pub(crate) fn read_number(
    text: &[u8],
    most: u64,
    expected: Expected,
) -> Result<(u64, &[u8]), Unexpected>
    ensures ok { IfOk result (λ r. ReadsArgument (Finds (number_up_to most)) text.now r.0 r.1.now) }
    ensures err { IfErr result (λ e. RefusesArgument (Finds (number_up_to most)) text.now e.left
        × (e.expected ≡ expected)) }
{
    let word = argument(text, expected)?;
    match parse_number(word.bytes, most) {
        Some(number) => Ok((number, word.rest)),
        None => Err(word.unexpected(expected)),
    }
}

/// Reads the name or number of a type of ICMP.
pub(crate) fn read_icmp_type(text: &[u8]) -> Result<(u8, &[u8]), Unexpected>
    ensures ok { IfOk result (λ r. ReadsArgument (Finds icmp_type_of) text.now r.0 r.1.now) }
    ensures err { IfErr result (λ e. RefusesArgument (Finds icmp_type_of) text.now e.left
        × (e.expected ≡ expects.IcmpType)) }
{
    let word = argument(text, Expected::IcmpType)?;
    match parse_icmp_type(word.bytes) {
        Some(number) => Ok((number, word.rest)),
        None => Err(word.unexpected(Expected::IcmpType)),
    }
}

/// Reads the name or number of a type of ICMPv6.
pub(crate) fn read_icmp6_type(text: &[u8]) -> Result<(u8, &[u8]), Unexpected>
    ensures ok { IfOk result (λ r. ReadsArgument (Finds icmp6_type_of) text.now r.0 r.1.now) }
    ensures err { IfErr result (λ e. RefusesArgument (Finds icmp6_type_of) text.now e.left
        × (e.expected ≡ expects.Icmp6Type)) }
{
    let word = argument(text, Expected::Icmp6Type)?;
    match parse_icmp6_type(word.bytes) {
        Some(number) => Ok((number, word.rest)),
        None => Err(word.unexpected(Expected::Icmp6Type)),
    }
}

/// Reads a comparison.
pub(crate) fn read_comparison(text: &[u8]) -> Result<(Comparison, &[u8]), Unexpected>
    ensures ok { IfOk result (λ r. ReadsArgument (Finds comparison_of) text.now r.0 r.1.now) }
    ensures err { IfErr result (λ e. RefusesArgument (Finds comparison_of) text.now e.left
        × (e.expected ≡ expects.Comparison)) }
{
    let word = argument(text, Expected::Comparison)?;
    match parse_comparison(word.bytes) {
        Some(comparison) => Ok((comparison, word.rest)),
        None => Err(word.unexpected(Expected::Comparison)),
    }
}

/// Reads flags of TCP.
pub(crate) fn read_tcp_flags(text: &[u8]) -> Result<(TcpFlags, &[u8]), Unexpected>
    ensures ok { IfOk result (λ r. ReadsArgument (Finds tcp_flags_of) text.now r.0 r.1.now) }
    ensures err { IfErr result (λ e. RefusesArgument (Finds tcp_flags_of) text.now e.left
        × (e.expected ≡ expects.TcpFlags)) }
{
    let word = argument(text, Expected::TcpFlags)?;
    match parse_tcp_flags(word.bytes) {
        Some(flags) => Ok((flags, word.rest)),
        None => Err(word.unexpected(Expected::TcpFlags)),
    }
}
