//! Terms, as a filter's text writes them.
ghost use Rattle.std.specs.Prelude.{◌≡◌, IfOk, IfErr, IfSome, IfNone};
ghost use Rattle.ip_filter.specs.declared.keyword.Keyword.TheVariants as is;
ghost use Rattle.ip_filter.specs.Qualifiers.{multicast_with};
ghost use Rattle.ip_filter.specs.Grammar.{Finds, AreCompared, layer_with};
ghost use Rattle.ip_filter.specs.Numbers.{number_up_to};
ghost use Rattle.ip_filter.specs.Reading.{IsCountKeyword, BeginsOtherwise, ReadsTerm, RefusesTerm, ReadsArgument, ReadsArguments, RefusesArguments};

use crate::access_bits::read_compared_bits;
use crate::arguments::{
    Unexpected, read_comparison, read_header, read_icmp_type, read_icmp6_type, read_number,
    read_protocol, read_tcp_flags, read_version,
};
use crate::keyword::{Keyword, NumberKeyword};
use crate::layers::{LayerError, parse_layer_with};
use crate::numbers::{parse_fault_kind, parse_number};
use crate::qualifiers::Protocol;
use crate::words::first_word;
use crate::{Comparison, Expected, Term};
use ip_base::err::Layer;

/// The largest security parameters index, identification or length on the wire.
const MAX_NUMBER: u64 = 4_294_967_295;

/// The largest identifier of a VLAN.
const MAX_VLAN: u64 = 4095;

/// What was read of a text: a term and the text after it.
pub(crate) type ReadTerm<'a> = Result<(Term, &'a [u8]), Unexpected>;

/// Reads the term with the keyword from the text after it, and returns the term and what follows it.
#[tactic(auto, using(crate::proofs::TermLemmas::alone_read, crate::proofs::TermLemmas::compared_read, crate::proofs::TermLemmas::segments_left_read, crate::proofs::TermLemmas::access_read, crate::proofs::TermLemmas::access_refused))]
pub(crate) fn read_term(keyword: Keyword, text: &[u8]) -> ReadTerm<'_>
    ensures ok { IfOk result (λ r. ReadsTerm keyword text.now r.0 r.1.now) }
    ensures err { IfErr result (λ e. RefusesTerm keyword text.now e.left e.expected) }
{
    match keyword {
        Keyword::Alone(term) => Ok((term, text)),
        Keyword::Protocol(protocol) => Ok(read_protocol_term(protocol, text)),
        Keyword::Truncated => Ok(read_truncated(text)),
        Keyword::Fault => Ok(read_fault(text)),
        Keyword::Number(keyword) => read_number_term(keyword, text),
        Keyword::Compared(quantity) => match read_count(text) {
            Ok(((comparison, number), rest)) => {
                Ok((Term::Compared(quantity, comparison, number), rest))
            }
            Err(error) => Err(error),
        },
        Keyword::SegmentsLeft => match read_count(text) {
            Ok(((comparison, number), rest)) => Ok((Term::SegmentsLeft(comparison, number), rest)),
            Err(error) => Err(error),
        },
        Keyword::Access(bytes) => match read_compared_bits(text) {
            Ok((bits, rest)) => Ok((Term::Access(bytes, bits), rest)),
            Err(error) => Err(error),
        },
        Keyword::Vlan => Ok(read_vlan(text)),
    }
}

/// Reads what follows the keyword `vlan`, which may be an identifier.
#[tactic(auto, using(crate::proofs::TermLemmas::vlan_of, crate::proofs::TermLemmas::plain_vlan))]
fn read_vlan(text: &[u8]) -> (Term, &[u8])
    ensures { ReadsTerm is.Vlan text.now result.0 result.1.now }
{
    match read_identifier(text) {
        Some((identifier, rest)) => (Term::VlanOf(identifier), rest),
        None => (Term::Vlan, text),
    }
}

/// Reads the identifier of a VLAN, if the text begins with one.
#[tactic(auto, using(crate::proofs::ArgumentLemmas::this_word, crate::proofs::TermLemmas::no_word_is_no_vlan, crate::proofs::TermLemmas::other_is_no_vlan))]
fn read_identifier(text: &[u8]) -> Option<(u16, &[u8])>
    ensures some { IfSome result (λ r. ReadsArgument (Finds (number_up_to 4095)) text.now r.0 r.1.now) }
    ensures none { IfNone result (BeginsOtherwise (number_up_to 4095) text.now) }
{
    match first_word(text) {
        Some(word) => match parse_number(word.bytes, MAX_VLAN) {
            Some(identifier) => Some((identifier as u16, word.rest)),
            None => None,
        },
        None => None,
    }
}

/// Reads what follows a version or protocol, which may be `multicast`.
#[tactic(auto, using(crate::proofs::TermLemmas::multicast_read, crate::proofs::TermLemmas::plain_protocol))]
fn read_protocol_term(protocol: Protocol, text: &[u8]) -> (Term, &[u8])
    ensures { ReadsTerm (is.Protocol protocol) text.now result.0 result.1.now }
{
    match read_multicast(protocol, text) {
        Some(read) => read,
        None => (protocol.term(), text),
    }
}

/// Reads `multicast`, if the text begins with it and the protocol takes it.
#[tactic(auto, using(crate::proofs::ArgumentLemmas::this_word, crate::proofs::TermLemmas::no_word_is_no_multicast, crate::proofs::TermLemmas::other_is_no_multicast))]
fn read_multicast(protocol: Protocol, text: &[u8]) -> Option<(Term, &[u8])>
    ensures some { IfSome result (λ r. ReadsArgument (Finds (multicast_with protocol)) text.now r.0 r.1.now) }
    ensures none { IfNone result (BeginsOtherwise (multicast_with protocol) text.now) }
{
    match first_word(text) {
        Some(word) => match protocol.multicast_with(word.bytes) {
            Some(term) => Some((term, word.rest)),
            None => None,
        },
        None => None,
    }
}

/// Reads what follows the keyword `truncated`, which may be a layer.
#[tactic(auto, using(crate::proofs::TermLemmas::truncated_at, crate::proofs::TermLemmas::plain_truncated))]
fn read_truncated(text: &[u8]) -> (Term, &[u8])
    ensures { ReadsTerm is.Truncated text.now result.0 result.1.now }
{
    match read_layer(LayerError::Truncated, text) {
        Some((layer, rest)) => (Term::TruncatedAt(layer), rest),
        None => (Term::Truncated, text),
    }
}

/// Reads a layer that can have the error, if the text begins with one.
#[tactic(auto, using(crate::proofs::ArgumentLemmas::this_word, crate::proofs::TermLemmas::no_word_is_no_layer, crate::proofs::TermLemmas::other_is_no_layer))]
fn read_layer(error: LayerError, text: &[u8]) -> Option<(Layer, &[u8])>
    ensures some { IfSome result (λ r. ReadsArgument (Finds (layer_with error)) text.now r.0 r.1.now) }
    ensures none { IfNone result (BeginsOtherwise (layer_with error) text.now) }
{
    match first_word(text) {
        Some(word) => match parse_layer_with(error, word.bytes) {
            Some(layer) => Some((layer, word.rest)),
            None => None,
        },
        None => None,
    }
}

/// Reads what follows the keyword `fault`, which may be a kind of fault, and then a layer.
#[tactic(auto, using(crate::proofs::TermLemmas::fault_at, crate::proofs::TermLemmas::fault_of, crate::proofs::TermLemmas::no_word_is_no_kind, crate::proofs::TermLemmas::other_is_no_kind))]
fn read_fault(text: &[u8]) -> (Term, &[u8])
    ensures { ReadsTerm is.Fault text.now result.0 result.1.now }
{
    match first_word(text) {
        Some(word) => match parse_fault_kind(word.bytes) {
            Some(kind) => match read_layer(LayerError::Fault(kind), word.rest) {
                Some((layer, rest)) => (Term::FaultAt(kind, layer), rest),
                None => (Term::FaultOf(kind), word.rest),
            },
            None => (Term::Fault, text),
        },
        None => (Term::Fault, text),
    }
}

/// Reads the number or the name that follows a keyword.
#[tactic(auto, using(crate::proofs::TermLemmas::number_terms))]
fn read_number_term(keyword: NumberKeyword, text: &[u8]) -> ReadTerm<'_>
    ensures ok { IfOk result (λ r. ReadsTerm (is.Number keyword) text.now r.0 r.1.now) }
    ensures err { IfErr result (λ e. RefusesTerm (is.Number keyword) text.now e.left e.expected) }
{
    match keyword {
        NumberKeyword::Version => {
            let (version, rest) = read_version(text)?;
            Ok((Term::Version(version), rest))
        }
        NumberKeyword::Header => {
            let (number, rest) = read_header(text)?;
            Ok((Term::Header(number), rest))
        }
        NumberKeyword::LeadsTo => {
            let (number, rest) = read_protocol(text)?;
            Ok((Term::LeadsTo(number), rest))
        }
        NumberKeyword::SecurityParameters => {
            let (spi, rest) = read_number(text, MAX_NUMBER, Expected::Number)?;
            Ok((Term::SecurityParameters(spi as u32), rest))
        }
        NumberKeyword::Identification => {
            let (number, rest) = read_number(text, MAX_NUMBER, Expected::Number)?;
            Ok((Term::Identification(number as u32), rest))
        }
        NumberKeyword::RoutingType => {
            let (number, rest) = read_number(text, 255, Expected::Byte)?;
            Ok((Term::RoutingType(number as u8), rest))
        }
        NumberKeyword::Option => {
            let (number, rest) = read_number(text, 255, Expected::Byte)?;
            Ok((Term::Option(number as u8), rest))
        }
        NumberKeyword::IcmpType => {
            let (number, rest) = read_icmp_type(text)?;
            Ok((Term::IcmpType(number), rest))
        }
        NumberKeyword::IcmpCode => {
            let (number, rest) = read_number(text, 255, Expected::Byte)?;
            Ok((Term::IcmpCode(number as u8), rest))
        }
        NumberKeyword::Icmp6Type => {
            let (number, rest) = read_icmp6_type(text)?;
            Ok((Term::Icmp6Type(number), rest))
        }
        NumberKeyword::Icmp6Code => {
            let (number, rest) = read_number(text, 255, Expected::Byte)?;
            Ok((Term::Icmp6Code(number as u8), rest))
        }
        NumberKeyword::TcpFlags => {
            let (flags, rest) = read_tcp_flags(text)?;
            Ok((Term::TcpFlags(flags), rest))
        }
        NumberKeyword::Less => {
            let (len, rest) = read_number(text, MAX_NUMBER, Expected::Number)?;
            Ok((Term::WireLength(Comparison::AtMost, len), rest))
        }
        NumberKeyword::Greater => {
            let (len, rest) = read_number(text, MAX_NUMBER, Expected::Number)?;
            Ok((Term::WireLength(Comparison::AtLeast, len), rest))
        }
    }
}

/// Reads a comparison and a number.
#[tactic(auto, using(crate::proofs::TermLemmas::count_read, crate::proofs::TermLemmas::no_number, crate::proofs::TermLemmas::no_comparison))]
fn read_count(text: &[u8]) -> Result<((Comparison, u64), &[u8]), Unexpected>
    ensures ok { IfOk result (λ r. ReadsArguments AreCompared text.now r.0 r.1.now) }
    ensures err { IfErr result (λ e. RefusesArguments AreCompared IsCountKeyword
        text.now e.left e.expected) }
{
    match read_comparison(text) {
        Ok((comparison, rest)) => match read_number(rest, u64::MAX, Expected::Count) {
            Ok((number, rest)) => Ok(((comparison, number), rest)),
            Err(error) => Err(error),
        },
        Err(error) => Err(error),
    }
}
