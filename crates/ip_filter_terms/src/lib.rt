//! The terms of filters, their arguments and what holds of them, as texts for programs that list them.
//!
//! Each text is constant, and ends with a zero, as C expects. `scripts/terms` writes the tables from the file `terms`, and
//! from the same file the lists in `wolfaren.h`, in the Rust package and in the manual page of `ipcap`.
#![tactic(auto)]

ghost use Rattle.std.specs.Prelude.{◌≡◌};
ghost use Rattle.ip_filter_terms.specs.Rows.{text_in};
ghost use Rattle.ip_filter_terms.specs.Table.{terms, term_meanings, term_examples, arguments, argument_meanings, term_notes};

/// Returns a term with its arguments, by its index. An index beyond the last has the empty text.
#[tactic(auto, using(std::proofs::lemmas::List::get_or_past))]
pub fn term(index: u8) -> &'static [u8]
    ensures { result.now ≡ text_in terms index }
{
    match index {
        0 => b"fragment\0",
        1 => b"first-fragment\0",
        2 => b"later-fragment\0",
        3 => b"header HEADER\0",
        4 => b"leads-to PROTOCOL\0",
        5 => b"tcp\0",
        6 => b"udp\0",
        7 => b"dccp\0",
        8 => b"gre\0",
        9 => b"esp\0",
        10 => b"no-next\0",
        11 => b"sctp\0",
        12 => b"udp-lite\0",
        13 => b"icmp\0",
        14 => b"icmp6\0",
        15 => b"headers OP N\0",
        16 => b"chain-bytes OP N\0",
        17 => b"payload OP N\0",
        18 => b"length OP N\0",
        19 => b"no-length\0",
        20 => b"hop-limit OP N\0",
        21 => b"ttl OP N\0",
        22 => b"dscp OP N\0",
        23 => b"ecn OP N\0",
        24 => b"flow OP N\0",
        25 => b"fault\0",
        26 => b"fault KIND\0",
        27 => b"fault KIND LAYER\0",
        28 => b"truncated\0",
        29 => b"truncated LAYER\0",
        30 => b"incomplete\0",
        31 => b"mismatched\0",
        32 => b"less N\0",
        33 => b"greater N\0",
        34 => b"vlan\0",
        35 => b"vlan N\0",
        36 => b"arp\0",
        37 => b"version N\0",
        38 => b"ip\0",
        39 => b"ip6\0",
        40 => b"spi N\0",
        41 => b"id N\0",
        42 => b"routing-type N\0",
        43 => b"segments-left OP N\0",
        44 => b"option N\0",
        45 => b"src NETWORK\0",
        46 => b"dst NETWORK\0",
        47 => b"net NETWORK\0",
        48 => b"host ADDRESS\0",
        49 => b"ip multicast\0",
        50 => b"ip6 multicast\0",
        51 => b"src port PORTS\0",
        52 => b"dst port PORTS\0",
        53 => b"port PORTS\0",
        54 => b"portrange PORTS\0",
        55 => b"proto PROTOCOL\0",
        56 => b"no-transport\0",
        57 => b"icmp-type TYPE\0",
        58 => b"icmp6-type TYPE\0",
        59 => b"icmp-code N\0",
        60 => b"icmp6-code N\0",
        61 => b"tcp-flags FLAGS\0",
        _ => b"\0",
    }
}

/// Returns what a term says, by its index. An index beyond the last has the empty text.
#[tactic(auto, using(std::proofs::lemmas::List::get_or_past))]
pub fn term_meaning(index: u8) -> &'static [u8]
    ensures { result.now ≡ text_in term_meanings index }
{
    match index {
        0 => b"the payload is a fragment\0",
        1 => b"the payload is a first fragment\0",
        2 => b"the payload is a middle or last fragment\0",
        3 => b"the chain has this header\0",
        4 => b"this number follows the chain\0",
        5 => b"TCP (6) follows the chain\0",
        6 => b"UDP (17) follows the chain\0",
        7 => b"DCCP (33) follows the chain\0",
        8 => b"GRE (47) follows the chain\0",
        9 => b"ESP (50) follows the chain\0",
        10 => b"no header (59) follows the chain\0",
        11 => b"SCTP (132) follows the chain\0",
        12 => b"UDP-Lite (136) follows the chain\0",
        13 => b"ICMP (1) follows the chain of an IPv4 packet\0",
        14 => b"ICMPv6 (58) follows that of an IPv6 packet\0",
        15 => b"the number of headers in the chain\0",
        16 => b"the length of the chain in bytes\0",
        17 => b"the number of payload bytes captured\0",
        18 => b"the length of the packet in bytes\0",
        19 => b"the IP header states length 0\0",
        20 => b"the hop limit, or the time to live of IPv4\0",
        21 => b"as hop-limit\0",
        22 => b"the differentiated services code point\0",
        23 => b"the explicit congestion notification\0",
        24 => b"the flow label of an IPv6 packet\0",
        25 => b"the packet has an error\0",
        26 => b"the packet has an error of this kind\0",
        27 => b"the error is in this header or packet\0",
        28 => b"a header is truncated\0",
        29 => b"this header is truncated\0",
        30 => b"bytes of the stated length are missing\0",
        31 => b"IPv4 announced as IPv6, or the reverse\0",
        32 => b"the frame has at most N bytes on the wire\0",
        33 => b"the frame has at least N bytes on the wire\0",
        34 => b"the frame has a VLAN tag\0",
        35 => b"one of its first two tags has this number\0",
        36 => b"the EtherType of the frame is that of ARP\0",
        37 => b"the IP version, 4 or 6\0",
        38 => b"as version 4\0",
        39 => b"as version 6\0",
        40 => b"the security parameters index of AH or ESP\0",
        41 => b"the identification of the fragment\0",
        42 => b"the type of a routing header\0",
        43 => b"the segments left of a routing header\0",
        44 => b"a hop-by-hop or destination option\0",
        45 => b"the source address is in the network\0",
        46 => b"the destination address is in the network\0",
        47 => b"either address is in the network\0",
        48 => b"either address is this one\0",
        49 => b"the destination is in 224.0.0.0/3\0",
        50 => b"the destination is in ff00::/8\0",
        51 => b"the source port is one of these\0",
        52 => b"the destination port is one of these\0",
        53 => b"either port is one of these\0",
        54 => b"as port\0",
        55 => b"as leads-to, or the chain has the header\0",
        56 => b"the upper-layer header is not all there\0",
        57 => b"the type of an ICMP message of IPv4\0",
        58 => b"the type of an ICMPv6 message of IPv6\0",
        59 => b"the code of an ICMP message of IPv4\0",
        60 => b"the code of an ICMPv6 message of IPv6\0",
        61 => b"these flags of TCP are set\0",
        _ => b"\0",
    }
}

/// Returns an example of a term, by its index. An index beyond the last has the empty text.
#[tactic(auto, using(std::proofs::lemmas::List::get_or_past))]
pub fn term_example(index: u8) -> &'static [u8]
    ensures { result.now ≡ text_in term_examples index }
{
    match index {
        0 => b"fragment\0",
        1 => b"first-fragment\0",
        2 => b"later-fragment\0",
        3 => b"header 44\0",
        4 => b"leads-to 135\0",
        5 => b"tcp\0",
        6 => b"udp\0",
        7 => b"dccp\0",
        8 => b"gre\0",
        9 => b"esp\0",
        10 => b"no-next\0",
        11 => b"sctp\0",
        12 => b"udp-lite\0",
        13 => b"icmp\0",
        14 => b"icmp6\0",
        15 => b"headers > 2\0",
        16 => b"chain-bytes >= 256\0",
        17 => b"payload < 8\0",
        18 => b"length > 1280\0",
        19 => b"no-length\0",
        20 => b"hop-limit = 255\0",
        21 => b"ttl < 2\0",
        22 => b"dscp = 46\0",
        23 => b"ecn = 3\0",
        24 => b"flow != 0\0",
        25 => b"fault\0",
        26 => b"fault too-short\0",
        27 => b"fault too-short routing\0",
        28 => b"truncated\0",
        29 => b"truncated routing\0",
        30 => b"incomplete\0",
        31 => b"mismatched\0",
        32 => b"less 64\0",
        33 => b"greater 1500\0",
        34 => b"vlan\0",
        35 => b"vlan 100\0",
        36 => b"arp\0",
        37 => b"version 6\0",
        38 => b"ip\0",
        39 => b"ip6\0",
        40 => b"spi 0x1000\0",
        41 => b"id 7\0",
        42 => b"routing-type 4\0",
        43 => b"segments-left > 0\0",
        44 => b"option 5\0",
        45 => b"src 2001:db8::/32\0",
        46 => b"dst 192.0.2.1\0",
        47 => b"net 10.0.0.0/8\0",
        48 => b"host 2001:db8::1\0",
        49 => b"ip multicast\0",
        50 => b"ip6 multicast\0",
        51 => b"src port 1024-65535\0",
        52 => b"dst port 443\0",
        53 => b"port 53\0",
        54 => b"portrange 1-1023\0",
        55 => b"proto 44\0",
        56 => b"no-transport\0",
        57 => b"icmp-type icmp-echo\0",
        58 => b"icmp6-type icmp6-echo\0",
        59 => b"icmp-code 0\0",
        60 => b"icmp6-code 0\0",
        61 => b"tcp-flags syn/syn,ack\0",
        _ => b"\0",
    }
}

/// Returns an argument, by its index. An index beyond the last has the empty text.
#[tactic(auto, using(std::proofs::lemmas::List::get_or_past))]
pub fn argument(index: u8) -> &'static [u8]
    ensures { result.now ≡ text_in arguments index }
{
    match index {
        0 => b"HEADER\0",
        1 => b"PROTOCOL\0",
        2 => b"OP\0",
        3 => b"KIND\0",
        4 => b"LAYER\0",
        5 => b"TYPE\0",
        6 => b"N\0",
        7 => b"NETWORK\0",
        8 => b"ADDRESS\0",
        9 => b"PORTS\0",
        10 => b"FLAGS\0",
        _ => b"\0",
    }
}

/// Returns what an argument may be, by its index. An index beyond the last has the empty text.
#[tactic(auto, using(std::proofs::lemmas::List::get_or_past))]
pub fn argument_meaning(index: u8) -> &'static [u8]
    ensures { result.now ≡ text_in argument_meanings index }
{
    match index {
        0 =>
            b"hop-by-hop (0), routing (43), fragment (44), authentication (51), destination-options (60), in short hopopt (0), route (43), frag (44), ah (51), dstopts (60), or one of these numbers\0",
        1 =>
            b"a number from 0 to 255, a HEADER, or icmp (1), tcp (6), udp (17), dccp (33), gre (47), esp (50), icmp6 (58), no-next (59), sctp (132), udp-lite (136)\0",
        2 => b"= == != < <= > >=\0",
        3 => b"too-short, not-at-start, zero-length, unsupported-version, header-length\0",
        4 =>
            b"IP-header, IPv4-header, IPv4-packet, authentication, IPv6-header, IPv6-extension, hop-by-hop, destination-options, routing, fragment; IPv6-extension is any extension header of an IPv6 packet\0",
        5 =>
            b"a number from 0 to 255, or its name in libpcap's expressions, such as icmp-echo or icmp6-neighborsolicit\0",
        6 => b"a decimal number, or a hexadecimal one after 0x\0",
        7 =>
            b"an IPv4 or IPv6 address, alone or with a slash and a number of bits; after net, also A mask M, or one to three numbers: net 192.168 is net 192.168.0.0/16\0",
        8 => b"an IPv4 or IPv6 address\0",
        9 => b"a number from 0 to 65535, or a range such as 1024-65535\0",
        10 =>
            b"fin, syn, rst, psh, ack, urg, ece, cwr, or several with commas between; all that count after a slash\0",
        _ => b"\0",
    }
}

/// Returns what holds of several terms, a paragraph, by its index. An index beyond the last has the empty text.
#[tactic(auto, using(std::proofs::lemmas::List::get_or_past))]
pub fn term_note(index: u8) -> &'static [u8]
    ensures { result.now ≡ text_in term_notes index }
{
    match index {
        0 => b"After `leads-to`, `icmp` and `icmp6` are numbers of either version.\0",
        1 =>
            b"A `fault` is too-short with IPv4-packet or an extension header, not-at-start with hop-by-hop, zero-length with authentication, unsupported-version with IP-header, or header-length with IPv4-header; IPv6-extension may follow the first three. IP-header, IPv4-header, IPv6-header and extension headers can be truncated.\0",
        2 =>
            b"`length` is what is there where none is stated. A jumbo payload option doesn't count for `no-length`.\0",
        3 =>
            b"TCP, UDP, UDP-Lite, SCTP and DCCP have ports. Ports, types, codes and flags of TCP are read from the payload, so extension headers may precede them. A later fragment has none, nor has a packet with an error or a truncated header. The terms about fragments hold of an IPv6 packet if they do of one of its fragment headers.\0",
        4 =>
            b"`no-transport` asks for the header of TCP up to its data offset, of DCCP likewise, of SCTP (12 bytes), of UDP, UDP-Lite and ICMP after IPv4 (8 bytes) and of ICMPv6 after IPv6 (4 bytes). It holds of a first fragment that has less of it (RFC 7112), and of a packet whose data offset is too small.\0",
        5 =>
            b"`mismatched`, `less`, `greater`, `vlan` and `arp` ask the frame, of which a match may be told. Of a packet alone, `less` and `greater` ask the length as `length` does, and the others are false.\0",
        6 =>
            b"As in tcpdump's expressions, `host`, `net`, `port` or `portrange` may follow `src` and `dst`, and `ip`, `ip6` or the name of a protocol may precede `src`, `dst` and these: `tcp src port 80` is `( tcp and src port 80 )`, of two terms. `src or dst` is either one, and `src and dst port 53` is `( src port 53 and dst port 53 )`. An address, prefix, port or protocol alone takes the words of the term before it: `tcp port 80 or 443` is `tcp port 80 or tcp port 443`.\0",
        7 =>
            b"An access compares bytes of the packet, as in tcpdump's expressions: `tcp[13] & 2 != 0`, `ip[6:2] & 0x1fff = 0`. `NAME[I]`, `NAME[I:2]` and `NAME[I:4]` are the number in 1, 2 or 4 bytes at offset I, in network byte order. NAME is `ip` or `ip6`, with offsets from the IP header of this version, or the name of a protocol, with offsets from its header, which extension headers may precede. `& BITS` may follow, and then OP and BITS: a number of 32 bits, a name, or several in parentheses with `|` between them, as in `tcp[tcpflags] & (tcp-syn|tcp-ack) != 0`. The names are tcp-fin, tcp-syn, tcp-rst, tcp-push, tcp-ack, tcp-urg, tcp-ece, tcp-cwr and those of types; icmptype, icmpcode, icmp6type, icmp6code and tcpflags are offsets. An access is false, also with `!=`, if not all of its bytes are in the packet, or if the protocol's header is in an earlier fragment.\0",
        8 =>
            b"Terms are joined by `not`, `and` and `or`, or `!`, `&&` and `||`, and by parentheses. `not` binds most tightly, then `and`. White space separates words. There may be up to 64 terms and 16 levels of parentheses.\0",
        _ => b"\0",
    }
}
