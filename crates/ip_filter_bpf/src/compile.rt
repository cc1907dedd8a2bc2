//! The program of a filter.
ghost use Rattle.std.specs.Prelude.{◌≡◌, ℕ, ◌<◌, ◌≤◌, ◌+◌, ◌*◌, ◌^◌, List, length, true, Some};
ghost use Rattle.ip_bpf.specs.Assembly.{Extends};
ghost use Rattle.ip_bpf.specs.Machine.{result_of};
ghost use Rattle.ip_bpf.specs.Programs.{IsProgram};
ghost use Rattle.ip_dissect.specs.Dissection.{dissected};
ghost use Rattle.ip_filter_bpf.specs.Blocks.{Returns, NeedsNothing, HasBytes};
ghost use Rattle.ip_filter_bpf.specs.Compiled.{number_of, room_of, returned, exit_label, end_label, passes_from};
ghost use Rattle.ip_filter_bpf.specs.Verdict.{verdict};

use crate::start::put_start;
use crate::tests_of_base::put_test;
use crate::undecided::Undecided;
use crate::version::Version;
use ip_bpf::{Assembler, Operation};
use ip_filter::{Filter, Test};

/// The labels of the returns at the end of the program.
const REJECT: usize = 1;

const ACCEPT: usize = 2;

/// Compiles a filter to a program that the kernel accepts, for packets that begin with an IP header. Replaces what is in `code`.
///
/// For each packet of less than 4 GiB the program returns 2^32 - 1 where the tests that it decides let the packet pass
/// (`verdict`), and otherwise 0. It decides tests of addresses and of fields of the base header. It leads a packet that comes to another test to the end that
/// `undecided` names.
pub fn compile_filter(filter: &Filter, undecided: Undecided, code: &mut Assembler)
    ensures accepted { IsProgram code.new }
    ensures returns { (packet : List ℕ) → HasBytes packet → length packet < 2 ^ 32
        → result_of code.new packet ≡ Some (returned (verdict undecided filter.now packet)) }
{
    code.clear();
    code.put(Operation::ReturnConstant(0));
    code.put(Operation::ReturnConstant(u32::MAX));
    let tests = filter.used_tests();
    let none = put_tests(code, tests, Version::None, undecided);
    let ipv4 = put_tests(code, tests, Version::Ipv4, undecided);
    let ipv6 = put_tests(code, tests, Version::Ipv6, undecided);
    put_start(code, none, ipv4, ipv6);
    // each of them is right
    let _ = code.instructions();
}

/// Puts the tests of a filter, for packets of this version. Returns their label.
fn put_tests(code: &mut Assembler, tests: &[Test], version: Version, undecided: Undecided) -> usize
    requires few { length tests.now ≤ 64 }
    requires room { length code.old + 2 * room_of version * length tests.now ≤ 4096 }
    requires ends { 2 ≤ length code.old }
    ensures some { 0 < result }
    ensures there { result ≤ length code.new }
    ensures front { Extends code.new code.old }
    ensures len { length code.new ≤ length code.old + 2 * room_of version * length tests.now }
    ensures words { NeedsNothing code.old 1 → NeedsNothing code.old 2 → NeedsNothing code.new result }
    ensures leads { (packet : List ℕ) → (dissected packet).version ≡ number_of version → HasBytes packet
        → Returns code.old 1 packet 0 → Returns code.old 2 packet (returned true)
        → Returns code.new result packet (returned (passes_from undecided tests.now 0 0 packet)) }
{
    let mut labels = [REJECT; 64];
    let mut index = tests.len();
    'tests: while index > 0 {
        index -= 1;
        let test = &tests[index];
        labels[index] = put_test(
            code,
            test,
            version,
            exit(&labels, index, test.if_met),
            exit(&labels, index, test.if_not),
            end(undecided),
        );
    }
    labels[0]
}

/// Returns the label to which a test with an index leads.
fn exit(labels: &[usize; 64], index: usize, to: u8) -> usize
    ensures { result ≡ exit_label labels.now index to }
{
    let to = usize::from(to);
    if to == 64 {
        ACCEPT
    } else if index < to && to < 64 {
        labels[to]
    } else {
        REJECT
    }
}

/// Returns the label for packets that the program doesn't decide.
fn end(undecided: Undecided) -> usize
    ensures { result ≡ end_label undecided }
{
    match undecided {
        Undecided::Keep => ACCEPT,
        Undecided::Drop => REJECT,
    }
}
