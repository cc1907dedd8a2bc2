//! Primitives, as a filter's text writes them: a term, or qualifiers and an identifier.
ghost use Rattle.std.specs.Prelude.{◌≡◌, is_some, ℕ, List, [], ◌∷◌, take, false, Option, Some, None, codes, IfOk, IfErr, IfSome, IfNone};
ghost use Rattle.std.specs.Str.{bytes_eq};
ghost use Rattle.ip_filter.specs.declared.words.Word.{Word as FirstWord};
ghost use Rattle.ip_filter.specs.Words.{Word as Text, words};
ghost use Rattle.ip_filter.specs.declared.qualifiers.Qualifiers.{Qualifiers as TheQualifiers};
ghost use Rattle.ip_filter.specs.declared.qualifiers.Named.{Named as TheNamed};
ghost use Rattle.ip_filter.specs.declared.primitive.Head.{Head as TheHead};
ghost use Rattle.ip_filter.specs.declared.network.Network.TheVariants as network;
ghost use Rattle.ip_filter.specs.Qualifiers.{Identifies, qualified, network_said, of_any_protocol, protocol_named, direction_named, joined_by, wanted_side, side_or_kind_at};
ghost use Rattle.ip_filter.specs.Grammar.{Finds, keyword_of, is_identifier};
ghost use Rattle.ip_filter.specs.Reading.{IsFirstWord, ReadsArgument, RefusesArgument, BeginsNoQualifiers, ReadsDirections, RefusesDirections, ReadsKind, ReadsSide, RefusesSide, ReadsQualifiers, BeginsMask, LacksMask, ReadsPrimitive, RefusesPrimitive};

use crate::arguments::{Unexpected, argument};
use crate::keyword::keyword_of;
use crate::networks::{parse_front_address, parse_mask};
use crate::operators::{is_and, is_not, is_or};
use crate::parse_term::read_term;
use crate::qualifiers::{
    Direction, Kind, Primitive, Protocol, Qualifiers, direction_named, kind_named, kind_of,
    network_said, protocol_named,
};
use crate::words::{Word, first_word};
use crate::{Expected, Network};

/// The most terms of a filter.
pub(crate) const MAX_TERMS: usize = 64;

/// What was read of a text: a primitive and the text after it.
pub(crate) type ReadPrimitive<'a> = Result<(Primitive, &'a [u8]), Unexpected>;

/// Qualifiers that were read.
#[derive(Clone, Copy)]
pub(crate) struct Head<'a> {
    /// The qualifiers.
    pub qualifiers: Qualifiers,
    /// The bytes after them.
    pub rest: &'a [u8],
}

/// Qualifiers at the start of a text, if it begins with some.
type ReadHead<'a> = Result<Option<Head<'a>>, Unexpected>;

/// Reads the primitive that the word begins, after `terms` terms. An identifier takes the qualifiers `before`.
pub(crate) fn read_primitive<'a>(
    before: Option<Qualifiers>,
    terms: usize,
    word: Word<'a>,
) -> ReadPrimitive<'a>
    ensures ok { IfOk result (λ r. (text : List ℕ) → IsFirstWord text word.entry
        → ReadsPrimitive before terms text r.0 r.1.now) }
    ensures err { IfErr result (λ e. (text : List ℕ) → IsFirstWord text word.entry
        → bytes_eq word.entry.bytes.now (codes "(") ≡ false → RefusesPrimitive before terms text e.left e.expected) }
{
    match read_qualifiers(&word, terms) {
        Ok(Some(head)) => read_qualified(head, terms),
        Ok(None) => read_plain(before, terms, word),
        Err(error) => Err(error),
    }
}

/// Reads the term that the word begins, or the word as an identifier that takes the qualifiers `before`.
fn read_plain<'a>(before: Option<Qualifiers>, terms: usize, word: Word<'a>) -> ReadPrimitive<'a>
    ensures ok { IfOk result (λ r. (text : List ℕ) → IsFirstWord text word.entry
        → BeginsNoQualifiers word.entry.bytes.now word.entry.rest.now → ReadsPrimitive before terms text r.0 r.1.now) }
    ensures err { IfErr result (λ e. (text : List ℕ) → IsFirstWord text word.entry
        → BeginsNoQualifiers word.entry.bytes.now word.entry.rest.now
        → bytes_eq word.entry.bytes.now (codes "(") ≡ false → RefusesPrimitive before terms text e.left e.expected) }
{
    match keyword_of(word.bytes) {
        Some(keyword) => match read_term(keyword, word.rest) {
            Ok((term, rest)) => Ok((Primitive::plain(term), rest)),
            Err(error) => Err(error),
        },
        None => read_carried(before, terms, word),
    }
}

/// Reads the qualifiers that the word begins, after `terms` terms.
fn read_qualifiers<'a>(word: &Word<'a>, terms: usize) -> ReadHead<'a>
    ensures some { IfOk result (λ o. IfSome o (λ h. (text : List ℕ) → IsFirstWord text word.now
        → ReadsQualifiers terms text h)) }
    ensures none { IfOk result (λ o. IfNone o (BeginsNoQualifiers word.now.bytes.now word.now.rest.now)) }
    ensures err { IfErr result (λ e. (text : List ℕ) (x : Option TheQualifiers) → IsFirstWord text word.now
        → RefusesPrimitive x terms text e.left e.expected) }
{
    let Some(protocol) = protocol_named(word.bytes) else {
        return match read_side_or_kind(word, terms) {
            Ok(head) => Ok(head),
            Err(error) => Err(error),
        };
    };
    match first_word(word.rest) {
        Some(next) => read_after_protocol(protocol, next, terms),
        None => Ok(None),
    }
}

/// Reads the qualifiers that the word begins after a protocol, after `terms` terms. A primitive of the protocol has two terms
/// at least.
fn read_after_protocol<'a>(protocol: Protocol, word: Word<'a>, terms: usize) -> ReadHead<'a>
    ensures some { IfOk result (λ o. IfSome o (λ h. (text : List ℕ) (w : FirstWord) → IsFirstWord text w
        → Some protocol ≡ protocol_named w.bytes.now → IsFirstWord w.rest.now word.entry
        → ReadsQualifiers terms text h)) }
    ensures none { IfOk result (λ o. IfNone o (side_or_kind_at (word.entry.bytes.now ∷ []) ≡ None)) }
    ensures err { IfErr result (λ e. (text : List ℕ) (x : Option TheQualifiers) (w : FirstWord) → IsFirstWord text w
        → Some protocol ≡ protocol_named w.bytes.now → IsFirstWord w.rest.now word.entry
        → RefusesPrimitive x terms text e.left e.expected) }
{
    if !begins_side_or_kind(word.bytes) {
        return Ok(None);
    }
    if terms >= MAX_TERMS - 1 {
        return Err(word.unexpected(Expected::FewerTerms));
    }
    match read_side_or_kind(&word, terms + 1) {
        Ok(Some(head)) => Ok(Some(Head {
            qualifiers: Qualifiers {
                protocol: Some(protocol),
                ..head.qualifiers
            },
            ..head
        })),
        Ok(None) => Ok(None),
        Err(error) => Err(error),
    }
}

/// Reads the qualifiers after a protocol that the word begins, after `terms` terms.
fn read_side_or_kind<'a>(word: &Word<'a>, terms: usize) -> ReadHead<'a>
    ensures some { IfOk result (λ o. IfSome o (λ h. (text : List ℕ) → IsFirstWord text word.now
        → ReadsSide terms text h)) }
    ensures none { IfOk result (λ o. IfNone o (side_or_kind_at (word.now.bytes.now ∷ []) ≡ None)) }
    ensures err { IfErr result (λ e. (text : List ℕ) → IsFirstWord text word.now → RefusesSide terms text e.left e.expected) }
{
    match direction_named(word.bytes) {
        Some(direction) => match read_directions(direction, word.rest, terms) {
            Ok((joined, after)) => {
                let (kind, rest) = read_kind(after);
                Ok(Some(Head {
                    qualifiers: of_any_protocol(joined, kind),
                    rest,
                }))
            }
            Err(error) => Err(error),
        },
        None => match kind_of(word.bytes) {
            Some(kind) => Ok(Some(Head {
                qualifiers: of_any_protocol(Direction::Either, kind),
                rest: word.rest,
            })),
            None => Ok(None),
        },
    }
}

/// Reads what follows `src` or `dst`, after `terms` terms: the other one, if an operator follows. A primitive that asks for both
/// has two terms.
fn read_directions(
    direction: Direction,
    text: &[u8],
    terms: usize,
) -> Result<(Direction, &[u8]), Unexpected>
    ensures ok { IfOk result (λ r. (first : Text) → Some direction ≡ direction_named first
        → ReadsDirections first direction terms text.now r.0 r.1.now) }
    ensures err { IfErr result (λ e. (first : Text) → Some direction ≡ direction_named first
        → RefusesDirections first direction terms text.now e.left e.expected) }
{
    let Some(operator) = first_word(text) else {
        return Ok((direction, text));
    };
    if is_or(operator.bytes) {
        return match read_other_side(direction, Direction::Either, operator.rest) {
            Ok(read) => Ok(read),
            Err(error) => Err(error),
        };
    }
    if !is_and(operator.bytes) {
        return Ok((direction, text));
    }
    if terms >= MAX_TERMS - 1 {
        return Err(operator.unexpected(Expected::FewerTerms));
    }
    match read_other_side(direction, Direction::Both, operator.rest) {
        Ok(read) => Ok(read),
        Err(error) => Err(error),
    }
}

/// Reads the other one of `src` and `dst` than the direction, and returns both.
#[tactic(auto, using(crate::proofs::ArgumentLemmas::end_of_text, crate::proofs::ArgumentLemmas::other_word, crate::proofs::ArgumentLemmas::this_word))]
fn read_other_side(
    direction: Direction,
    both: Direction,
    text: &[u8],
) -> Result<(Direction, &[u8]), Unexpected>
    ensures ok { IfOk result (λ r. ReadsArgument (Finds (joined_by direction both)) text.now r.0 r.1.now) }
    ensures err { IfErr result (λ e. RefusesArgument (Finds (joined_by direction both)) text.now e.left
        × (e.expected ≡ wanted_side direction)) }
{
    let word = argument(text, direction.wanted_side())?;
    match direction.joined_by(both, word.bytes) {
        Some(joined) => Ok((joined, word.rest)),
        None => Err(word.unexpected(direction.wanted_side())),
    }
}

/// Returns the qualifiers without a protocol.
fn of_any_protocol(direction: Direction, kind: Kind) -> Qualifiers
    ensures { result ≡ of_any_protocol direction kind }
{
    Qualifiers {
        protocol: None,
        direction,
        kind,
    }
}

/// Reads what an identifier is from the text after directions: a network, unless a word says otherwise.
fn read_kind(text: &[u8]) -> (Kind, &[u8])
    ensures { ReadsKind text.now result.0 result.1.now }
{
    match first_word(text) {
        Some(word) => match kind_named(word.bytes) {
            Some(kind) => (kind, word.rest),
            None => (Kind::Side, text),
        },
        None => (Kind::Side, text),
    }
}

/// Reads the identifier after qualifiers.
fn read_qualified<'a>(head: Head<'a>, terms: usize) -> ReadPrimitive<'a>
    ensures ok { IfOk result (λ r. (text : List ℕ) (x : Option TheQualifiers) → ReadsQualifiers terms text head.entry
        → ReadsPrimitive x terms text r.0 r.1.now) }
    ensures err { IfErr result (λ e. (text : List ℕ) (x : Option TheQualifiers) → ReadsQualifiers terms text head.entry
        → RefusesPrimitive x terms text e.left e.expected) }
{
    match argument(head.rest, head.qualifiers.kind.wanted()) {
        Ok(word) => match address_before_mask(head.qualifiers.kind, &word) {
            Some((address, rest)) => match read_mask(head.qualifiers, address, rest) {
                Ok(read) => Ok(read),
                Err(error) => Err(error),
            },
            None => read_identifier(head, terms, word),
        },
        Err(error) => Err(error),
    }
}

/// Returns the address of a network that the word writes, and the text after the word `mask`, if that follows it.
fn address_before_mask<'a>(kind: Kind, word: &Word<'a>) -> Option<(u32, &'a [u8])>
    ensures some { IfSome result (λ r. (h : TheHead) → h.qualifiers.kind ≡ kind → IsFirstWord h.rest.now word.now
        → BeginsMask h r.0 r.1.now) }
    ensures none { IfNone result (LacksMask kind word.now) }
{
    match kind {
        Kind::Network => match parse_front_address(word.bytes) {
            Some(address) => match after_mask(word.rest) {
                Some(rest) => Some((address, rest)),
                None => None,
            },
            None => None,
        },
        _ => None,
    }
}

/// Returns the text after the word `mask`, if the text begins with it.
fn after_mask(text: &[u8]) -> Option<&[u8]>
    ensures some { IfSome result (λ rest. (w : FirstWord) × IsFirstWord text.now w × (w.bytes.now ≡ codes "mask")
        × (rest.now ≡ w.rest.now)) }
    ensures none { IfNone result (take 1 (words text.now) ≡ codes "mask" ∷ [] → ⊥) }
{
    match first_word(text) {
        Some(word) => {
            if word.bytes == b"mask".as_slice() {
                Some(word.rest)
            } else {
                None
            }
        }
        None => None,
    }
}

/// Reads the mask after the address of a network.
fn read_mask(qualifiers: Qualifiers, address: u32, text: &[u8]) -> ReadPrimitive<'_>
    ensures ok { IfOk result (λ r. (n : ℕ) (whole : List ℕ) (x : Option TheQualifiers) (h : TheHead)
        → h.qualifiers ≡ qualifiers → ReadsQualifiers n whole h → BeginsMask h address text.now
        → ReadsPrimitive x n whole r.0 r.1.now) }
    ensures err { IfErr result (λ e. (n : ℕ) (whole : List ℕ) (x : Option TheQualifiers) (h : TheHead)
        → h.qualifiers ≡ qualifiers → ReadsQualifiers n whole h → BeginsMask h address text.now
        → RefusesPrimitive x n whole e.left e.expected) }
{
    match argument(text, Expected::Mask) {
        Ok(word) => match parse_mask(word.bytes) {
            Some(len) => Ok((masked(qualifiers, address, len), word.rest)),
            None => Err(word.unexpected(Expected::Mask)),
        },
        Err(error) => Err(error),
    }
}

/// Returns the primitive that the qualifiers are with the network of an IPv4 address.
fn masked(qualifiers: Qualifiers, address: u32, len: u8) -> Primitive
    ensures { result ≡ qualified qualifiers (network_said qualifiers.direction (network.Ipv4 address len)) }
{
    Primitive {
        protocol: qualifiers.protocol,
        named: network_said(qualifiers.direction, Network::Ipv4 { address, len }),
        leaves: Some(qualifiers),
    }
}

/// Reads the word as the identifier after qualifiers.
fn read_identifier<'a>(head: Head<'a>, terms: usize, word: Word<'a>) -> ReadPrimitive<'a>
    ensures ok { IfOk result (λ r. (text : List ℕ) (x : Option TheQualifiers) → ReadsQualifiers terms text head.entry
        → IsFirstWord head.entry.rest.now word.entry → LacksMask head.entry.qualifiers.kind word.entry
        → ReadsPrimitive x terms text r.0 r.1.now) }
    ensures err { IfErr result (λ e. (text : List ℕ) (x : Option TheQualifiers) → ReadsQualifiers terms text head.entry
        → IsFirstWord head.entry.rest.now word.entry → RefusesPrimitive x terms text e.left e.expected) }
{
    match identified(head.qualifiers, word.bytes) {
        Some(primitive) => {
            if terms > MAX_TERMS - primitive.terms() {
                return Err(word.unexpected(Expected::FewerTerms));
            }
            Ok((primitive, word.rest))
        }
        None => Err(word.unexpected(head.qualifiers.kind.wanted())),
    }
}

/// Reads the word as an identifier that takes the qualifiers `before`.
fn read_carried<'a>(before: Option<Qualifiers>, terms: usize, word: Word<'a>) -> ReadPrimitive<'a>
    ensures ok { IfOk result (λ r. (text : List ℕ) → IsFirstWord text word.entry
        → ReadsPrimitive before terms text r.0 r.1.now) }
    ensures err { IfErr result (λ e. (text : List ℕ) → IsFirstWord text word.entry
        → keyword_of word.entry.bytes.now ≡ None → BeginsNoQualifiers word.entry.bytes.now word.entry.rest.now
        → bytes_eq word.entry.bytes.now (codes "(") ≡ false → RefusesPrimitive before terms text e.left e.expected) }
{
    if !is_identifier(word.bytes) {
        return Err(word.unexpected(Expected::Operand));
    }
    match before {
        Some(qualifiers) => match identified(qualifiers, word.bytes) {
            Some(primitive) => {
                if terms > MAX_TERMS - primitive.terms() {
                    return Err(word.unexpected(Expected::FewerTerms));
                }
                Ok((primitive, word.rest))
            }
            None => Err(word.unexpected(Expected::Operand)),
        },
        None => Err(word.unexpected(Expected::Operand)),
    }
}

/// Returns the primitive that the qualifiers are with the word, if it is such an identifier.
fn identified(qualifiers: Qualifiers, word: &[u8]) -> Option<Primitive>
    ensures some { IfSome result (λ p. (n : TheNamed) × Identifies qualifiers.kind qualifiers.direction word.now n
        × (p ≡ qualified qualifiers n)) }
    ensures none { IfNone result ((n : TheNamed) → Identifies qualifiers.kind qualifiers.direction word.now n → ⊥) }
{
    match qualifiers.kind.named(qualifiers.direction, word) {
        Some(named) => Some(Primitive {
            protocol: qualifiers.protocol,
            named,
            leaves: Some(qualifiers),
        }),
        None => None,
    }
}

/// Returns whether the word neither begins a primitive nor joins or groups operands.
fn is_identifier(word: &[u8]) -> bool
    ensures { result ≡ is_identifier word.now }
{
    let is_sign = word == b"(".as_slice() || word == b")".as_slice();
    let begins = keyword_of(word).is_some() || begins_side_or_kind(word);
    !begins && !is_not(word) && !is_and(word) && !is_or(word) && !is_sign
}

/// Returns whether qualifiers after a protocol begin with the word.
fn begins_side_or_kind(word: &[u8]) -> bool
    ensures { result ≡ is_some (side_or_kind_at (word.now ∷ [])) }
{
    direction_named(word).is_some() || kind_of(word).is_some()
}
