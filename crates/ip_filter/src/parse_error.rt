//! The error of the parse of a filter.
use thiserror::Error;

/// What the text of a filter needs at some place.
#[derive(Clone, Copy, Debug, PartialEq, Eq, Error)]
pub enum Expected {
    /// A term, or what may precede one.
    #[error("a term, `not` or `(`")]
    Operand,
    /// An operator, or the end of the text.
    #[error("`and`, `or` or the end")]
    OperatorOrEnd,
    /// An operator, or the end of a group.
    #[error("`and`, `or` or `)`")]
    OperatorOrClose,
    /// An IP version.
    #[error("4 or 6")]
    Version,
    /// An extension header that packets can have. Other protocols are terms of what follows the headers.
    #[error("0 (`hop-by-hop`), 43 (`routing`), 44 (`fragment`), 51 (`authentication`), 60 (`destination-options`), or `leads-to N` in place of `header N`")]
    Header,
    /// A protocol or an extension header.
    #[error("a number from 0 to 255 or the name of a protocol")]
    Protocol,
    /// A comparison.
    #[error("`=`, `!=`, `<`, `<=`, `>` or `>=`")]
    Comparison,
    /// A number that is compared with.
    #[error("a number from 0 to 18446744073709551615")]
    Count,
    /// A security parameters index or an identification.
    #[error("a number from 0 to 4294967295")]
    Number,
    /// A network.
    #[error("an address or a prefix")]
    Network,
    /// A mask, after the address of a network.
    #[error("a mask that begins with its ones, as 255.255.255.0")]
    Mask,
    /// A code of ICMP, a type of routing, or a type of option.
    #[error("a number from 0 to 255")]
    Byte,
    /// A network, or the ports of one side.
    #[error("an address, a prefix or `port`")]
    NetworkOrPort,
    /// The word `src`, after `dst` and an operator.
    #[error("`src`")]
    Source,
    /// The word `dst`, after `src` and an operator.
    #[error("`dst`")]
    Destination,
    /// An address.
    #[error("an address")]
    Address,
    /// Ports.
    #[error("a port or a range of ports, as 1024-65535")]
    Ports,
    /// A type of ICMP.
    #[error("a number from 0 to 255 or the name of a type, as icmp-echo")]
    IcmpType,
    /// A type of ICMPv6.
    #[error("a number from 0 to 255 or the name of a type, as icmp6-echo")]
    Icmp6Type,
    /// Flags of TCP.
    #[error("`fin`, `syn`, `rst`, `psh`, `ack`, `urg`, `ece` or `cwr`, or a list as syn,ack or syn/syn,ack")]
    TcpFlags,
    /// A mask or a comparison, after the bytes that an access reads.
    #[error("`&` and a mask, or `=`, `!=`, `<`, `<=`, `>` or `>=`")]
    MaskOrComparison,
    /// A mask, or what is compared with, in an access.
    #[error("a number from 0 to 4294967295, a name as tcp-syn or icmp-echo, or `(` and several with `|` between them")]
    Bits,
    /// One of several, in an access.
    #[error("a number from 0 to 4294967295 or a name as tcp-syn or icmp-echo")]
    JoinedBits,
    /// Another one of several, or their end, in an access.
    #[error("`|` or `)`")]
    JoinedBitsEnd,
    /// No operator, since there are 64 terms already.
    #[error("no more than 64 terms")]
    FewerTerms,
    /// No parenthesis, since 16 are open already.
    #[error("no more than 16 levels of parentheses")]
    LessNesting,
}

/// The text isn't a filter.
#[derive(Clone, Copy, Debug, PartialEq, Eq, Error)]
#[error("expected {expected} at byte {offset}")]
pub struct ParseError {
    /// Where the first word begins that can't continue a filter, in bytes from the start of the text; the end of the
    /// text if a word is missing.
    pub offset: usize,
    /// What is expected there.
    pub expected: Expected,
}
