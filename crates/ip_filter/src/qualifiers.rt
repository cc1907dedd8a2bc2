//! Qualifiers: the words before an identifier, which say what it is compared with.
ghost use Rattle.std.specs.Prelude.{◌≡◌, ◌≤◌, ◌+◌, IfSome, IfNone};
ghost use Rattle.ip_filter.specs.declared.qualifiers.Named.{Named as TheNamed};
ghost use Rattle.ip_filter.specs.Formula.{terms_of};
ghost use Rattle.ip_filter.specs.Qualifiers.{protocol_named, protocol_term, multicast_term, multicast_with, direction_named, joined_by, kind_named, kind_of, network_said, ports_said, protocol_said, wanted_side, wanted, Identifies, says, plain};

use crate::networks::{parse_host, parse_network, parse_network_or_front};
use crate::numbers::{header_numbered, parse_ports, parse_protocol, parse_upper_layer};
use crate::{Expected, Network, Ports, Term};

/// A version, or a protocol that follows the headers.
#[derive(Clone, Copy)]
pub(crate) enum Protocol {
    /// An IP version.
    Version(u8),
    /// ICMP of an IPv4 packet.
    Icmp,
    /// ICMPv6 of an IPv6 packet.
    Icmp6,
    /// The headers lead to this number.
    LeadsTo(u8),
}

/// Whose address or port is compared.
#[derive(Clone, Copy)]
pub(crate) enum Direction {
    /// The source's.
    Source,
    /// The destination's.
    Destination,
    /// Either one's.
    Either,
    /// Both.
    Both,
}

/// What an identifier is.
#[derive(Clone, Copy)]
pub(crate) enum Kind {
    /// A network, where no word says so.
    Side,
    /// One address.
    Host,
    /// A network.
    Network,
    /// A port or a range of ports.
    Ports,
    /// A protocol.
    Protocol,
}

/// The qualifiers before an identifier.
#[derive(Clone, Copy)]
pub(crate) struct Qualifiers {
    /// The protocol that the packet has to have, too.
    pub protocol: Option<Protocol>,
    /// Whose address or port the identifier is compared with.
    pub direction: Direction,
    /// What the identifier is.
    pub kind: Kind,
}

/// What an identifier says with its qualifiers, without their protocol.
#[derive(Clone, Copy)]
pub(crate) enum Named {
    /// This term.
    Term(Term),
    /// Both of these.
    Both(Term, Term),
    /// One of these, or both.
    Either(Term, Term),
}

/// The smallest part of a filter: a term, or several of them that belong together.
#[derive(Clone, Copy)]
pub(crate) struct Primitive {
    /// The protocol that the packet has to have, too.
    pub protocol: Option<Protocol>,
    /// What else is said of it.
    pub named: Named,
    /// The qualifiers that an identifier after it takes.
    pub leaves: Option<Qualifiers>,
}

impl Protocol {
    /// Returns the term that asks for the protocol.
    pub(crate) fn term(self) -> Term
        ensures { result ≡ protocol_term self }
    {
        match self {
            Protocol::Version(version) => Term::Version(version),
            Protocol::Icmp => Term::Icmp,
            Protocol::Icmp6 => Term::Icmp6,
            Protocol::LeadsTo(number) => Term::LeadsTo(number),
        }
    }

    /// Returns the term that the word makes of the protocol, if it follows it.
    pub(crate) fn multicast_with(self, word: &[u8]) -> Option<Term>
        ensures { result ≡ multicast_with self word.now }
    {
        if word == b"multicast".as_slice() {
            return self.multicast_term();
        }
        None
    }

    /// Returns the term that the destination is a multicast address, if the protocol is a version of IP.
    fn multicast_term(self) -> Option<Term>
        ensures { result ≡ multicast_term self }
    {
        match self {
            Protocol::Version(4) => Some(Term::Destination(Network::Ipv4 {
                address: 0xe000_0000,
                len: 3,
            })),
            Protocol::Version(_) => Some(Term::Destination(Network::Ipv6 {
                address: 0xff00_0000_0000_0000_0000_0000_0000_0000,
                len: 8,
            })),
            _ => None,
        }
    }
}

impl Primitive {
    /// Returns the primitive that is a term.
    pub(crate) fn plain(term: Term) -> Primitive
        ensures { result ≡ plain term }
    {
        Primitive {
            protocol: None,
            named: Named::Term(term),
            leaves: None,
        }
    }

    /// Returns how many terms it has.
    pub(crate) fn terms(&self) -> usize
        ensures count { result ≡ terms_of (says self.now) }
        ensures few { result ≤ 3 }
    {
        let terms = match self.named {
            Named::Term(_) => 1,
            Named::Both(_, _) | Named::Either(_, _) => 2,
        };
        match self.protocol {
            Some(_) => terms + 1,
            None => terms,
        }
    }
}

/// Returns the version or protocol that the word names.
pub(crate) fn protocol_named(word: &[u8]) -> Option<Protocol>
    ensures { result ≡ protocol_named word.now }
{
    if word == b"ip".as_slice() {
        return Some(Protocol::Version(4));
    }
    if word == b"ip6".as_slice() {
        return Some(Protocol::Version(6));
    }
    if word == b"icmp".as_slice() {
        return Some(Protocol::Icmp);
    }
    if word == b"icmp6".as_slice() {
        return Some(Protocol::Icmp6);
    }
    match parse_upper_layer(word) {
        Some(number) => Some(Protocol::LeadsTo(number)),
        None => None,
    }
}

/// Returns the direction that the word states.
pub(crate) fn direction_named(word: &[u8]) -> Option<Direction>
    ensures { result ≡ direction_named word.now }
{
    if word == b"src".as_slice() {
        return Some(Direction::Source);
    }
    if word == b"dst".as_slice() {
        return Some(Direction::Destination);
    }
    None
}

impl Direction {
    /// Returns both directions, if the word states the other one than this.
    pub(crate) fn joined_by(self, both: Direction, word: &[u8]) -> Option<Direction>
        ensures { result ≡ joined_by self both word.now }
    {
        let is_other = match self {
            Direction::Source => word == b"dst".as_slice(),
            _ => word == b"src".as_slice(),
        };
        if is_other { Some(both) } else { None }
    }

    /// Returns what is expected after the direction and `or` or `and`.
    pub(crate) fn wanted_side(self) -> Expected
        ensures { result ≡ wanted_side self }
    {
        match self {
            Direction::Source => Expected::Destination,
            _ => Expected::Source,
        }
    }
}

/// Returns what the word says that an identifier is, as it may after a direction.
pub(crate) fn kind_named(word: &[u8]) -> Option<Kind>
    ensures { result ≡ kind_named word.now }
{
    if word == b"host".as_slice() {
        return Some(Kind::Host);
    }
    if word == b"net".as_slice() {
        return Some(Kind::Network);
    }
    if word == b"port".as_slice() || word == b"portrange".as_slice() {
        return Some(Kind::Ports);
    }
    None
}

/// Returns what the word says that an identifier is, where no direction precedes it.
pub(crate) fn kind_of(word: &[u8]) -> Option<Kind>
    ensures { result ≡ kind_of word.now }
{
    if word == b"proto".as_slice() {
        return Some(Kind::Protocol);
    }
    kind_named(word)
}

impl Kind {
    /// Returns what is expected where the identifier is missing or wrong.
    pub(crate) fn wanted(self) -> Expected
        ensures { result ≡ wanted self }
    {
        match self {
            Kind::Side => Expected::NetworkOrPort,
            Kind::Host => Expected::Address,
            Kind::Network => Expected::Network,
            Kind::Ports => Expected::Ports,
            Kind::Protocol => Expected::Protocol,
        }
    }

    /// Returns what the word says as an identifier, if it is one of this kind.
    pub(crate) fn named(self, direction: Direction, word: &[u8]) -> Option<Named>
        ensures some { IfSome result (Identifies self direction word.now) }
        ensures none { IfNone result ((n : TheNamed) → Identifies self direction word.now n → ⊥) }
    {
        match self {
            Kind::Side => match parse_network(word) {
                Some(network) => Some(network_said(direction, network)),
                None => None,
            },
            Kind::Host => match parse_host(word) {
                Some(network) => Some(network_said(direction, network)),
                None => None,
            },
            Kind::Network => match parse_network_or_front(word) {
                Some(network) => Some(network_said(direction, network)),
                None => None,
            },
            Kind::Ports => match parse_ports(word) {
                Some(ports) => Some(ports_said(direction, ports)),
                None => None,
            },
            Kind::Protocol => match parse_protocol(word) {
                Some(number) => Some(protocol_said(number)),
                None => None,
            },
        }
    }
}

/// Returns what a network says with the direction.
pub(crate) fn network_said(direction: Direction, network: Network) -> Named
    ensures { result ≡ network_said direction network }
{
    match direction {
        Direction::Source => Named::Term(Term::Source(network)),
        Direction::Destination => Named::Term(Term::Destination(network)),
        Direction::Either => Named::Term(Term::Either(network)),
        Direction::Both => Named::Both(Term::Source(network), Term::Destination(network)),
    }
}

/// Returns what ports say with the direction.
fn ports_said(direction: Direction, ports: Ports) -> Named
    ensures { result ≡ ports_said direction ports }
{
    match direction {
        Direction::Source => Named::Term(Term::SourcePort(ports)),
        Direction::Destination => Named::Term(Term::DestinationPort(ports)),
        Direction::Either => Named::Term(Term::Port(ports)),
        Direction::Both => Named::Both(Term::SourcePort(ports), Term::DestinationPort(ports)),
    }
}

/// Returns what the number of a protocol or extension header says.
fn protocol_said(number: u8) -> Named
    ensures { result ≡ protocol_said number }
{
    match header_numbered(number) {
        Some(_) => Named::Either(Term::Header(number), Term::LeadsTo(number)),
        None => Named::Term(Term::LeadsTo(number)),
    }
}
