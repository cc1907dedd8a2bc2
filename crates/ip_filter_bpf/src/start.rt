//! The start of a program: which base header a packet has.
ghost use Rattle.std.specs.Prelude.{◌≡◌, ℕ, ◌<◌, ◌≤◌, ◌+◌, ◌*◌, ◌/◌, ◌%◌, ◌^◌, ◌==◌, List, length, slice_index, nat_le, if◌then◌else◌};
ghost use Rattle.ip_bpf.specs.Assembly.{Extends};
ghost use Rattle.ip_dissect.specs.Dissection.{dissected};
ghost use Rattle.ip_filter_bpf.specs.Blocks.{Returns, NeedsNothing, HasBytes};
ghost use Rattle.ip_filter_bpf.specs.Compiled.{label_of};

use crate::blocks::put_shift;
use ip_bpf::{Assembler, Comparison, Operand, Operation, Register, Width};

/// Puts the start: it leads packets of each version to their label, and those without a base header to that of none.
pub(crate) fn put_start(code: &mut Assembler, none: usize, ipv4: usize, ipv6: usize)
    requires room { length code.old + 30 ≤ 4096 }
    requires some_none { 0 < none }
    requires some_ipv4 { 0 < ipv4 }
    requires some_ipv6 { 0 < ipv6 }
    requires none_there { none ≤ length code.old }
    requires ipv4_there { ipv4 ≤ length code.old }
    requires ipv6_there { ipv6 ≤ length code.old }
    ensures front { Extends code.new code.old }
    ensures some { 0 < length code.new }
    ensures words { NeedsNothing code.old none → NeedsNothing code.old ipv4 → NeedsNothing code.old ipv6
        → NeedsNothing code.new (length code.new) }
    ensures leads { (packet : List ℕ) (r : ℕ) → HasBytes packet → length packet < 2 ^ 32
        → Returns code.old (label_of none ipv4 ipv6 (dissected packet).version) packet r
        → Returns code.new (length code.new) packet r }
{
    let all_there = put_whole_ipv4(code, ipv4, none);
    let long_enough = put_header_len(code, all_there, none);
    let whole = put_length(code, 40, ipv6, none);
    let is_ipv6 = put_version(code, 6, whole, none);
    let is_ipv4 = put_version(code, 4, long_enough, is_ipv6);
    let _ = put_length(code, 1, is_ipv4, none);
}

/// Puts a test of whether the packet has at least so many bytes. Returns its label.
fn put_length(code: &mut Assembler, least: u32, if_met: usize, if_not: usize) -> usize
    requires room { length code.old + 4 ≤ 4096 }
    requires some_met { 0 < if_met }
    requires some_not { 0 < if_not }
    requires met_there { if_met ≤ length code.old }
    requires not_there { if_not ≤ length code.old }
    ensures label { result ≡ length code.new }
    ensures some { 0 < length code.new }
    ensures front { Extends code.new code.old }
    ensures len { length code.new ≤ length code.old + 4 }
    ensures words { NeedsNothing code.old if_met → NeedsNothing code.old if_not → NeedsNothing code.new (length code.new) }
    ensures leads { (packet : List ℕ) (r : ℕ) → length packet < 2 ^ 32
        → Returns code.old (if nat_le least (length packet) then if_met else if_not) packet r
        → Returns code.new (length code.new) packet r }
{
    code.branch(
        Comparison::GreaterOrEqual,
        Operand::Constant(least),
        if_met,
        if_not,
    );
    code.put(Operation::LoadLength(Register::A));
    code.label()
}

/// Puts a test of the version in the packet's first byte. Returns its label.
fn put_version(code: &mut Assembler, version: u32, if_met: usize, if_not: usize) -> usize
    requires room { length code.old + 5 ≤ 4096 }
    requires some_met { 0 < if_met }
    requires some_not { 0 < if_not }
    requires met_there { if_met ≤ length code.old }
    requires not_there { if_not ≤ length code.old }
    ensures label { result ≡ length code.new }
    ensures some { 0 < length code.new }
    ensures front { Extends code.new code.old }
    ensures len { length code.new ≤ length code.old + 5 }
    ensures words { NeedsNothing code.old if_met → NeedsNothing code.old if_not → NeedsNothing code.new (length code.new) }
    ensures leads { (packet : List ℕ) (r : ℕ) → 1 ≤ length packet
        → Returns code.old (if slice_index packet 0 / 2 ^ 4 == version then if_met else if_not) packet r
        → Returns code.new (length code.new) packet r }
{
    code.branch(
        Comparison::Equal,
        Operand::Constant(version),
        if_met,
        if_not,
    );
    put_shift(code, 4);
    code.put(Operation::LoadAbsolute(Width::Byte, 0));
    code.label()
}

/// Puts a test of whether the IPv4 header states at least 20 bytes. Returns its label.
fn put_header_len(code: &mut Assembler, if_met: usize, if_not: usize) -> usize
    requires room { length code.old + 5 ≤ 4096 }
    requires some_met { 0 < if_met }
    requires some_not { 0 < if_not }
    requires met_there { if_met ≤ length code.old }
    requires not_there { if_not ≤ length code.old }
    ensures label { result ≡ length code.new }
    ensures some { 0 < length code.new }
    ensures front { Extends code.new code.old }
    ensures len { length code.new ≤ length code.old + 5 }
    ensures words { NeedsNothing code.old if_met → NeedsNothing code.old if_not → NeedsNothing code.new (length code.new) }
    ensures leads { (packet : List ℕ) (r : ℕ) → 1 ≤ length packet
        → Returns code.old (if nat_le 20 (4 * (slice_index packet 0 % 16)) then if_met else if_not) packet r
        → Returns code.new (length code.new) packet r }
{
    code.branch(
        Comparison::GreaterOrEqual,
        Operand::Constant(20),
        if_met,
        if_not,
    );
    code.put(Operation::CopyToAccumulator);
    code.put(Operation::LoadHeaderLength(0));
    code.label()
}

/// Puts a test of whether the bytes that the IPv4 header states are here. Returns its label.
fn put_whole_ipv4(code: &mut Assembler, if_met: usize, if_not: usize) -> usize
    requires room { length code.old + 5 ≤ 4096 }
    requires some_met { 0 < if_met }
    requires some_not { 0 < if_not }
    requires met_there { if_met ≤ length code.old }
    requires not_there { if_not ≤ length code.old }
    ensures label { result ≡ length code.new }
    ensures some { 0 < length code.new }
    ensures front { Extends code.new code.old }
    ensures len { length code.new ≤ length code.old + 5 }
    ensures words { NeedsNothing code.old if_met → NeedsNothing code.old if_not → NeedsNothing code.new (length code.new) }
    ensures leads { (packet : List ℕ) (r : ℕ) → 1 ≤ length packet → length packet < 2 ^ 32
        → Returns code.old (if nat_le (4 * (slice_index packet 0 % 16)) (length packet) then if_met else if_not) packet r
        → Returns code.new (length code.new) packet r }
{
    code.branch(Comparison::GreaterOrEqual, Operand::X, if_met, if_not);
    code.put(Operation::LoadLength(Register::A));
    code.put(Operation::LoadHeaderLength(0));
    code.label()
}
