//! Tests that the base header decides.
ghost use Rattle.std.specs.Prelude.{◌≡◌, ℕ, ◌<◌, ◌≤◌, ◌+◌, ◌*◌, ◌||◌, List, length, false, if◌then◌else◌};
ghost use Rattle.std.specs.Option.{option_map_or};
ghost use Rattle.ip_bpf.specs.Assembly.{Extends};
ghost use Rattle.ip_dissect.specs.Dissection.{dissected};
ghost use Rattle.ip_filter.specs.Network.{ipv4_lies_in, ipv6_lies_in};
ghost use Rattle.ip_filter.specs.Tests.{meets, network_in};
ghost use Rattle.ip_filter.specs.Truth.{has_source, has_destination};
ghost use Rattle.ip_filter_bpf.specs.Blocks.{Returns, NeedsNothing, HasBytes, word_at, address_at};
ghost use Rattle.ip_filter_bpf.specs.Compiled.{number_of, room_of};
ghost use Rattle.ip_filter_bpf.specs.Verdict.{is_decided};

use crate::blocks::{put_address, put_word};
use crate::compared::put_quantity;
use crate::version::Version;
use ip_bpf::Assembler;
use ip_filter::Test;

/// The kinds of tests that are decided.
mod kind {
    pub(crate) const SOURCE: u8 = 8;

    pub(crate) const DESTINATION: u8 = 9;

    pub(crate) const EITHER: u8 = 10;

    pub(crate) const HOP_LIMIT: u8 = 12;

    pub(crate) const FLOW_LABEL: u8 = 15;
}

/// Puts a test of packets of this version, with the labels of what follows if it is met, if it isn't, and if the program doesn't
/// decide it. Returns its label.
pub(crate) fn put_test(
    code: &mut Assembler,
    test: &Test,
    version: Version,
    if_met: usize,
    if_not: usize,
    if_undecided: usize,
) -> usize
    requires room { length code.old + 2 * room_of version ≤ 4096 }
    requires some_met { 0 < if_met }
    requires some_not { 0 < if_not }
    requires some_undecided { 0 < if_undecided }
    requires met_there { if_met ≤ length code.old }
    requires not_there { if_not ≤ length code.old }
    requires undecided_there { if_undecided ≤ length code.old }
    ensures some { 0 < result }
    ensures there { result ≤ length code.new }
    ensures front { Extends code.new code.old }
    ensures len { length code.new ≤ length code.old + 2 * room_of version }
    ensures words { NeedsNothing code.old if_met → NeedsNothing code.old if_not → NeedsNothing code.old if_undecided
        → NeedsNothing code.new result }
    ensures leads { (packet : List ℕ) (r : ℕ) → (dissected packet).version ≡ number_of version → HasBytes packet
        → Returns code.old (if is_decided test.now then (if meets test.now (dissected packet) then if_met else if_not) else if_undecided) packet r
        → Returns code.new result packet r }
{
    match test.kind {
        kind::SOURCE => put_source(code, test, version, if_met, if_not),
        kind::DESTINATION => put_destination(code, test, version, if_met, if_not),
        kind::EITHER => put_either(code, test, version, if_met, if_not),
        kind::HOP_LIMIT..=kind::FLOW_LABEL => put_quantity(code, test, version, if_met, if_not),
        _ => if_undecided,
    }
}

/// Puts a test of the source. Returns its label.
fn put_source(
    code: &mut Assembler,
    test: &Test,
    version: Version,
    if_met: usize,
    if_not: usize,
) -> usize
    requires room { length code.old + room_of version ≤ 4096 }
    requires some_met { 0 < if_met }
    requires some_not { 0 < if_not }
    requires met_there { if_met ≤ length code.old }
    requires not_there { if_not ≤ length code.old }
    ensures some { 0 < result }
    ensures there { result ≤ length code.new }
    ensures front { Extends code.new code.old }
    ensures len { length code.new ≤ length code.old + room_of version }
    ensures words { NeedsNothing code.old if_met → NeedsNothing code.old if_not → NeedsNothing code.new result }
    ensures leads { (packet : List ℕ) (r : ℕ) → (dissected packet).version ≡ number_of version → HasBytes packet
        → Returns code.old (if option_map_or (λ n. has_source n (dissected packet)) (network_in test.now) false then if_met else if_not) packet r
        → Returns code.new result packet r }
{
    match version {
        Version::None => if_not,
        Version::Ipv4 => put_ipv4_network(code, test, 12, if_met, if_not),
        Version::Ipv6 => put_ipv6_network(code, test, 8, if_met, if_not),
    }
}

/// Puts a test of the destination. Returns its label.
fn put_destination(
    code: &mut Assembler,
    test: &Test,
    version: Version,
    if_met: usize,
    if_not: usize,
) -> usize
    requires room { length code.old + room_of version ≤ 4096 }
    requires some_met { 0 < if_met }
    requires some_not { 0 < if_not }
    requires met_there { if_met ≤ length code.old }
    requires not_there { if_not ≤ length code.old }
    ensures some { 0 < result }
    ensures there { result ≤ length code.new }
    ensures front { Extends code.new code.old }
    ensures len { length code.new ≤ length code.old + room_of version }
    ensures words { NeedsNothing code.old if_met → NeedsNothing code.old if_not → NeedsNothing code.new result }
    ensures leads { (packet : List ℕ) (r : ℕ) → (dissected packet).version ≡ number_of version → HasBytes packet
        → Returns code.old (if option_map_or (λ n. has_destination n (dissected packet)) (network_in test.now) false then if_met else if_not) packet r
        → Returns code.new result packet r }
{
    match version {
        Version::None => if_not,
        Version::Ipv4 => put_ipv4_network(code, test, 16, if_met, if_not),
        Version::Ipv6 => put_ipv6_network(code, test, 24, if_met, if_not),
    }
}

/// Puts a test of either address. Returns its label.
fn put_either(
    code: &mut Assembler,
    test: &Test,
    version: Version,
    if_met: usize,
    if_not: usize,
) -> usize
    requires room { length code.old + 2 * room_of version ≤ 4096 }
    requires some_met { 0 < if_met }
    requires some_not { 0 < if_not }
    requires met_there { if_met ≤ length code.old }
    requires not_there { if_not ≤ length code.old }
    ensures some { 0 < result }
    ensures there { result ≤ length code.new }
    ensures front { Extends code.new code.old }
    ensures len { length code.new ≤ length code.old + 2 * room_of version }
    ensures words { NeedsNothing code.old if_met → NeedsNothing code.old if_not → NeedsNothing code.new result }
    ensures leads { (packet : List ℕ) (r : ℕ) → (dissected packet).version ≡ number_of version → HasBytes packet
        → Returns code.old (if option_map_or (λ n. has_source n (dissected packet) || has_destination n (dissected packet)) (network_in test.now) false then if_met else if_not) packet r
        → Returns code.new result packet r }
{
    let destination = put_destination(code, test, version, if_met, if_not);
    put_source(code, test, version, if_met, destination)
}

/// Puts a comparison of the IPv4 address at an offset with the network of a test. Returns its label.
fn put_ipv4_network(
    code: &mut Assembler,
    test: &Test,
    offset: u32,
    if_met: usize,
    if_not: usize,
) -> usize
    requires room { length code.old + 5 ≤ 4096 }
    requires near { offset < 32 }
    requires some_met { 0 < if_met }
    requires some_not { 0 < if_not }
    requires met_there { if_met ≤ length code.old }
    requires not_there { if_not ≤ length code.old }
    ensures some { 0 < result }
    ensures there { result ≤ length code.new }
    ensures front { Extends code.new code.old }
    ensures len { length code.new ≤ length code.old + 5 }
    ensures words { NeedsNothing code.old if_met → NeedsNothing code.old if_not → NeedsNothing code.new result }
    ensures leads { (packet : List ℕ) (r : ℕ) → offset + 4 ≤ length packet → HasBytes packet
        → Returns code.old (if option_map_or (λ n. ipv4_lies_in n (word_at packet offset)) (network_in test.now) false then if_met else if_not) packet r
        → Returns code.new result packet r }
{
    if test.version != 4 {
        return if_not;
    }
    if test.address_low >= 1 << 32 {
        return if_not;
    }
    let ignored = 32u32.saturating_sub(u32::from(test.prefix_len));
    put_word(
        code,
        offset,
        ignored,
        test.address_low as u32,
        if_met,
        if_not,
    )
}

/// Puts a comparison of the IPv6 address at an offset with the network of a test. Returns its label.
fn put_ipv6_network(
    code: &mut Assembler,
    test: &Test,
    offset: u32,
    if_met: usize,
    if_not: usize,
) -> usize
    requires room { length code.old + 20 ≤ 4096 }
    requires near { offset < 32 }
    requires some_met { 0 < if_met }
    requires some_not { 0 < if_not }
    requires met_there { if_met ≤ length code.old }
    requires not_there { if_not ≤ length code.old }
    ensures some { 0 < result }
    ensures there { result ≤ length code.new }
    ensures front { Extends code.new code.old }
    ensures len { length code.new ≤ length code.old + 20 }
    ensures words { NeedsNothing code.old if_met → NeedsNothing code.old if_not → NeedsNothing code.new result }
    ensures leads { (packet : List ℕ) (r : ℕ) → offset + 16 ≤ length packet → HasBytes packet
        → Returns code.old (if option_map_or (λ n. ipv6_lies_in n (address_at packet offset)) (network_in test.now) false then if_met else if_not) packet r
        → Returns code.new result packet r }
{
    if test.version != 6 {
        return if_not;
    }
    let ignored = 128u32.saturating_sub(u32::from(test.prefix_len));
    put_address(
        code,
        offset,
        ignored,
        test.address_high,
        test.address_low,
        if_met,
        if_not,
    )
}
