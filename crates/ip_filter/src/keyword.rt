//! Keywords: the words that terms begin with.
ghost use Rattle.std.specs.Prelude.{◌≡◌};
ghost use Rattle.ip_filter.specs.Grammar.{alone, quantity_named, icmp_keyword_of, number_keyword_of, keyword_of};

use crate::access_words::access_of;
use crate::qualifiers::{Protocol, protocol_named};
use crate::{AccessedBytes, Quantity, Term};

/// What a keyword is: a term, or the beginning of one.
#[derive(Clone, Copy)]
pub(crate) enum Keyword {
    /// A term by itself.
    Alone(Term),
    /// A version or protocol, after which a word may follow.
    Protocol(Protocol),
    /// A truncated header, whose layer may follow.
    Truncated,
    /// A faulty header, whose kind of fault may follow, and its layer.
    Fault,
    /// A number or a name follows.
    Number(NumberKeyword),
    /// A comparison and a number follow.
    Compared(Quantity),
    /// The segments left of a routing header, which a comparison and a number follow.
    SegmentsLeft,
    /// Bytes of the packet, which a mask may follow, and then a comparison and what they are compared with.
    Access(AccessedBytes),
    /// A VLAN tag, whose identifier may follow.
    Vlan,
}

/// A keyword that a number or a name follows.
#[derive(Clone, Copy)]
pub(crate) enum NumberKeyword {
    /// An IP version.
    Version,
    /// An extension header.
    Header,
    /// What follows the headers.
    LeadsTo,
    /// A security parameters index.
    SecurityParameters,
    /// An identification.
    Identification,
    /// A type of routing.
    RoutingType,
    /// A type of option.
    Option,
    /// A type of ICMP.
    IcmpType,
    /// A code of ICMP.
    IcmpCode,
    /// A type of ICMPv6.
    Icmp6Type,
    /// A code of ICMPv6.
    Icmp6Code,
    /// Flags of TCP.
    TcpFlags,
    /// The largest length on the wire.
    Less,
    /// The smallest length on the wire.
    Greater,
}

/// Returns what the word is, if it is a keyword.
pub(crate) fn keyword_of(word: &[u8]) -> Option<Keyword>
    ensures { result ≡ keyword_of word.now }
{
    if word == b"fault".as_slice() {
        return Some(Keyword::Fault);
    }
    if word == b"truncated".as_slice() {
        return Some(Keyword::Truncated);
    }
    if word == b"segments-left".as_slice() {
        return Some(Keyword::SegmentsLeft);
    }
    if word == b"vlan".as_slice() {
        return Some(Keyword::Vlan);
    }
    if let Some(term) = alone(word) {
        return Some(Keyword::Alone(term));
    }
    if let Some(protocol) = protocol_named(word) {
        return Some(Keyword::Protocol(protocol));
    }
    if let Some(quantity) = quantity_named(word) {
        return Some(Keyword::Compared(quantity));
    }
    if let Some(keyword) = number_keyword_of(word) {
        return Some(Keyword::Number(keyword));
    }
    match access_of(word) {
        Some(bytes) => Some(Keyword::Access(bytes)),
        None => None,
    }
}

/// Returns the term that the word is by itself.
fn alone(word: &[u8]) -> Option<Term>
    ensures { result ≡ alone word.now }
{
    if word == b"fragment".as_slice() {
        return Some(Term::Fragment);
    }
    if word == b"first-fragment".as_slice() {
        return Some(Term::FirstFragment);
    }
    if word == b"later-fragment".as_slice() {
        return Some(Term::LaterFragment);
    }
    if word == b"incomplete".as_slice() {
        return Some(Term::Incomplete);
    }
    if word == b"no-transport".as_slice() {
        return Some(Term::NoTransport);
    }
    if word == b"no-length".as_slice() {
        return Some(Term::NoLength);
    }
    if word == b"arp".as_slice() {
        return Some(Term::Arp);
    }
    if word == b"mismatched".as_slice() {
        return Some(Term::Mismatched);
    }
    None
}

/// Returns the quantity that the word names.
fn quantity_named(word: &[u8]) -> Option<Quantity>
    ensures { result ≡ quantity_named word.now }
{
    if word == b"headers".as_slice() {
        return Some(Quantity::Headers);
    }
    if word == b"chain-bytes".as_slice() {
        return Some(Quantity::ChainBytes);
    }
    if word == b"payload".as_slice() {
        return Some(Quantity::Payload);
    }
    if word == b"length".as_slice() {
        return Some(Quantity::Length);
    }
    if word == b"hop-limit".as_slice() || word == b"ttl".as_slice() {
        return Some(Quantity::HopLimit);
    }
    if word == b"dscp".as_slice() {
        return Some(Quantity::Dscp);
    }
    if word == b"ecn".as_slice() {
        return Some(Quantity::Ecn);
    }
    if word == b"flow".as_slice() {
        return Some(Quantity::FlowLabel);
    }
    None
}

/// Returns the keyword that the word is, if a number or a name follows it.
fn number_keyword_of(word: &[u8]) -> Option<NumberKeyword>
    ensures { result ≡ number_keyword_of word.now }
{
    if word == b"version".as_slice() {
        return Some(NumberKeyword::Version);
    }
    if word == b"header".as_slice() {
        return Some(NumberKeyword::Header);
    }
    if word == b"leads-to".as_slice() {
        return Some(NumberKeyword::LeadsTo);
    }
    if word == b"spi".as_slice() {
        return Some(NumberKeyword::SecurityParameters);
    }
    if word == b"id".as_slice() {
        return Some(NumberKeyword::Identification);
    }
    if word == b"routing-type".as_slice() {
        return Some(NumberKeyword::RoutingType);
    }
    if word == b"option".as_slice() {
        return Some(NumberKeyword::Option);
    }
    if word == b"tcp-flags".as_slice() {
        return Some(NumberKeyword::TcpFlags);
    }
    if word == b"less".as_slice() {
        return Some(NumberKeyword::Less);
    }
    if word == b"greater".as_slice() {
        return Some(NumberKeyword::Greater);
    }
    icmp_keyword_of(word)
}

/// Returns the keyword that the word is, if a type or code of ICMP follows it.
fn icmp_keyword_of(word: &[u8]) -> Option<NumberKeyword>
    ensures { result ≡ icmp_keyword_of word.now }
{
    if word == b"icmp-type".as_slice() {
        return Some(NumberKeyword::IcmpType);
    }
    if word == b"icmp-code".as_slice() {
        return Some(NumberKeyword::IcmpCode);
    }
    if word == b"icmp6-type".as_slice() {
        return Some(NumberKeyword::Icmp6Type);
    }
    if word == b"icmp6-code".as_slice() {
        return Some(NumberKeyword::Icmp6Code);
    }
    None
}
