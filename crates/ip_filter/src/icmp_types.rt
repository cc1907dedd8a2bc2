//! Types of ICMP and ICMPv6, as a filter's text writes them.
ghost use Rattle.std.specs.Prelude.{◌≡◌};
ghost use Rattle.ip_filter.specs.IcmpTypes.{icmp_basic_type, icmp_later_type, icmp6_basic_type, icmp6_neighbor_type, icmp6_later_type, icmp_type_of, icmp6_type_of};

use crate::numbers::parse_byte;

/// Returns the type of ICMP that the word names or whose number it writes.
pub(crate) fn parse_icmp_type(word: &[u8]) -> Option<u8>
    ensures { result ≡ icmp_type_of word.now }
{
    if let Some(number) = icmp_basic_type(word) {
        return Some(number);
    }
    match icmp_later_type(word) {
        Some(number) => Some(number),
        None => parse_byte(word),
    }
}

/// Returns the type of ICMPv6 that the word names or whose number it writes.
pub(crate) fn parse_icmp6_type(word: &[u8]) -> Option<u8>
    ensures { result ≡ icmp6_type_of word.now }
{
    if let Some(number) = icmp6_basic_type(word) {
        return Some(number);
    }
    if let Some(number) = icmp6_neighbor_type(word) {
        return Some(number);
    }
    match icmp6_later_type(word) {
        Some(number) => Some(number),
        None => parse_byte(word),
    }
}

/// Returns the type of ICMP from 0 to 11 that the word names.
fn icmp_basic_type(word: &[u8]) -> Option<u8>
    ensures { result ≡ icmp_basic_type word.now }
{
    if word == b"icmp-echoreply".as_slice() {
        return Some(0);
    }
    if word == b"icmp-unreach".as_slice() {
        return Some(3);
    }
    if word == b"icmp-sourcequench".as_slice() {
        return Some(4);
    }
    if word == b"icmp-redirect".as_slice() {
        return Some(5);
    }
    if word == b"icmp-echo".as_slice() {
        return Some(8);
    }
    if word == b"icmp-routeradvert".as_slice() {
        return Some(9);
    }
    if word == b"icmp-routersolicit".as_slice() {
        return Some(10);
    }
    if word == b"icmp-timxceed".as_slice() {
        return Some(11);
    }
    None
}

/// Returns the type of ICMP from 12 to 18 that the word names.
fn icmp_later_type(word: &[u8]) -> Option<u8>
    ensures { result ≡ icmp_later_type word.now }
{
    if word == b"icmp-paramprob".as_slice() {
        return Some(12);
    }
    if word == b"icmp-tstamp".as_slice() {
        return Some(13);
    }
    if word == b"icmp-tstampreply".as_slice() {
        return Some(14);
    }
    if word == b"icmp-ireq".as_slice() {
        return Some(15);
    }
    if word == b"icmp-ireqreply".as_slice() {
        return Some(16);
    }
    if word == b"icmp-maskreq".as_slice() {
        return Some(17);
    }
    if word == b"icmp-maskreply".as_slice() {
        return Some(18);
    }
    None
}

/// Returns the type of ICMPv6 from 1 to 132 that the word names: errors, echoes and multicast listeners.
fn icmp6_basic_type(word: &[u8]) -> Option<u8>
    ensures { result ≡ icmp6_basic_type word.now }
{
    if word == b"icmp6-destinationunreach".as_slice() {
        return Some(1);
    }
    if word == b"icmp6-packettoobig".as_slice() {
        return Some(2);
    }
    if word == b"icmp6-timeexceeded".as_slice() {
        return Some(3);
    }
    if word == b"icmp6-parameterproblem".as_slice() {
        return Some(4);
    }
    if word == b"icmp6-echo".as_slice() {
        return Some(128);
    }
    if word == b"icmp6-echoreply".as_slice() {
        return Some(129);
    }
    if word == b"icmp6-multicastlistenerquery".as_slice() {
        return Some(130);
    }
    if word == b"icmp6-multicastlistenerreportv1".as_slice() {
        return Some(131);
    }
    if word == b"icmp6-multicastlistenerdone".as_slice() {
        return Some(132);
    }
    None
}

/// Returns the type of ICMPv6 from 133 to 142 that the word names: neighbors, renumbering and information about nodes.
fn icmp6_neighbor_type(word: &[u8]) -> Option<u8>
    ensures { result ≡ icmp6_neighbor_type word.now }
{
    if word == b"icmp6-routersolicit".as_slice() {
        return Some(133);
    }
    if word == b"icmp6-routeradvert".as_slice() {
        return Some(134);
    }
    if word == b"icmp6-neighborsolicit".as_slice() {
        return Some(135);
    }
    if word == b"icmp6-neighboradvert".as_slice() {
        return Some(136);
    }
    if word == b"icmp6-redirect".as_slice() {
        return Some(137);
    }
    if word == b"icmp6-routerrenum".as_slice() {
        return Some(138);
    }
    if word == b"icmp6-nodeinformationquery".as_slice() {
        return Some(139);
    }
    if word == b"icmp6-nodeinformationresponse".as_slice() {
        return Some(140);
    }
    if word == b"icmp6-ineighbordiscoverysolicit".as_slice() {
        return Some(141);
    }
    if word == b"icmp6-ineighbordiscoveryadvert".as_slice() {
        return Some(142);
    }
    None
}

/// Returns the type of ICMPv6 from 143 to 153 that the word names: reports of multicast listeners, mobile nodes, certification
/// paths and multicast routers.
fn icmp6_later_type(word: &[u8]) -> Option<u8>
    ensures { result ≡ icmp6_later_type word.now }
{
    if word == b"icmp6-multicastlistenerreportv2".as_slice() {
        return Some(143);
    }
    if word == b"icmp6-homeagentdiscoveryrequest".as_slice() {
        return Some(144);
    }
    if word == b"icmp6-homeagentdiscoveryreply".as_slice() {
        return Some(145);
    }
    if word == b"icmp6-mobileprefixsolicit".as_slice() {
        return Some(146);
    }
    if word == b"icmp6-mobileprefixadvert".as_slice() {
        return Some(147);
    }
    if word == b"icmp6-certpathsolicit".as_slice() {
        return Some(148);
    }
    if word == b"icmp6-certpathadvert".as_slice() {
        return Some(149);
    }
    if word == b"icmp6-multicastrouteradvert".as_slice() {
        return Some(151);
    }
    if word == b"icmp6-multicastroutersolicit".as_slice() {
        return Some(152);
    }
    if word == b"icmp6-multicastrouterterm".as_slice() {
        return Some(153);
    }
    None
}
