//! Tests: filters that are compiled, on packets whose addresses are in the networks or not.
use ip_bpf::Assembler;
use ip_filter::Filter;
use ip_filter_bpf::{Undecided, compile_filter};
use std::process::Abort;

/// A TCP packet from 10.0.0.1 to 192.0.2.7, with 4 bytes of IPv4 options.
const IPV4: &[u8; 24] = b"\x46\0\0\x18\0\0\0\0\x40\x06\0\0\x0a\0\0\x01\xc0\0\x02\x07\x01\x01\x01\0";

/// A packet from `2001:db8:0:1::2` to `2001:db8:ffff::1`, without a payload.
const IPV6: &[u8; 40] =
    b"\x60\0\0\0\0\0\x3b\x40\x20\x01\x0d\xb8\0\0\0\x01\0\0\0\0\0\0\0\x02\x20\x01\x0d\xb8\xff\xff\0\0\0\0\0\0\0\0\0\x01";

/// Checks whether the program of a filter accepts a packet.
fn check(rt: &impl Abort, text: &str, undecided: Undecided, packet: &[u8], wanted: bool) {
    let filter = Filter::parse(text.as_bytes()).expect(rt, "the text is a filter");
    let mut code = Assembler::new();
    compile_filter(&filter, undecided, &mut code);
    let program = code.program().expect(rt, "the program is accepted");
    let result = program.run(packet);
    assert!(rt;
        result == if wanted { u32::MAX } else { 0 },
        "{text}: {result}"
    );
}

/// Checks it for both answers to packets that aren't decided.
fn check_both(rt: &impl Abort, text: &str, packet: &[u8], wanted: bool) {
    check(rt, text, Undecided::Keep, packet, wanted);
    check(rt, text, Undecided::Drop, packet, wanted);
}

#[test]
fn fields_of_base_headers(rt: HostRuntime) {
    check_both(&rt, "ttl = 64", IPV4, true);
    check_both(&rt, "hop-limit < 64", IPV4, false);
    check_both(&rt, "dscp = 0 and ecn = 0", IPV4, true);
    check_both(&rt, "flow >= 0", IPV4, false);
    check_both(&rt, "ttl <= 64", IPV6, true);
    check_both(&rt, "ttl > 64", IPV6, false);
    check_both(&rt, "flow = 0 and dscp != 1", IPV6, true);
}

#[test]
fn ipv4_addresses(rt: HostRuntime) {
    check_both(&rt, "src net 10.0.0.0/8", IPV4, true);
    check_both(&rt, "src net 11.0.0.0/8", IPV4, false);
    check_both(&rt, "src net 10.0.0.0/31", IPV4, true);
    check_both(&rt, "src net 10.0.0.0/32", IPV4, false);
    check_both(&rt, "dst net 192.0.2.0/29", IPV4, true);
    check_both(&rt, "dst net 192.0.2.8/29", IPV4, false);
    check_both(&rt, "net 192.0.2.7/32", IPV4, true);
    check_both(&rt, "net 0.0.0.0/0", IPV4, true);
    check_both(&rt, "net 0.0.0.0/0", IPV6, false);
    check_both(
        &rt,
        "net 10.0.0.0/8 and not dst net 192.0.2.0/24",
        IPV4,
        false,
    );
}

#[test]
fn ipv6_addresses(rt: HostRuntime) {
    check_both(&rt, "src net 2001:db8::/32", IPV6, true);
    check_both(&rt, "src net 2001:db8::/63", IPV6, true);
    check_both(&rt, "src net 2001:db8::/64", IPV6, false);
    check_both(&rt, "src net 2001:db8:0:1::2/128", IPV6, true);
    check_both(&rt, "src net 2001:db8:0:1::3/128", IPV6, false);
    check_both(&rt, "dst net 2001:db8:8000::/33", IPV6, true);
    check_both(&rt, "dst net 2001:db8::/33", IPV6, false);
    check_both(&rt, "net 2001:db8:ffff::/48", IPV6, true);
    check_both(&rt, "net ::/0", IPV6, true);
    check_both(&rt, "net ::/0", IPV4, false);
}

#[test]
fn base_headers_that_are_not_there(rt: HostRuntime) {
    check_both(&rt, "net 0.0.0.0/0", &IPV4[..23], false);
    check_both(&rt, "not net 0.0.0.0/0", &IPV4[..23], true);
    check_both(&rt, "net ::/0", &IPV6[..39], false);
    check_both(&rt, "not net ::/0", &IPV6[..39], true);
    check_both(&rt, "not net ::/0", b"", true);
    // a header length of 16 bytes, and version 5
    let short = *b"\x44\0\0\x18\0\0\0\0\x40\x06\0\0\x0a\0\0\x01\xc0\0\x02\x07";
    let other = *b"\x55\0\0\x18\0\0\0\0\x40\x06\0\0\x0a\0\0\x01\xc0\0\x02\x07";
    check_both(&rt, "net 0.0.0.0/0", &short, false);
    check_both(&rt, "net 0.0.0.0/0", &other, false);
}

#[test]
fn tests_that_are_not_decided(rt: HostRuntime) {
    check(&rt, "udp", Undecided::Keep, IPV4, true);
    check(&rt, "tcp", Undecided::Drop, IPV4, false);
    check(&rt, "udp and net 10.0.0.0/8", Undecided::Keep, IPV4, true);
    check(&rt, "udp and net 11.0.0.0/8", Undecided::Keep, IPV4, false);
    check(&rt, "tcp or net 10.0.0.0/8", Undecided::Drop, IPV4, true);
    check(&rt, "not udp", Undecided::Drop, IPV4, false);
}
