//! Runs the tests of a filter on a packet.
ghost use Rattle.std.specs.Prelude.{◌≡◌, ◌≤◌, ◌==◌, ◌||◌, ◌∷◌, [], length, true, if◌then◌else◌};
ghost use Rattle.ip_dissect.specs.Dissection.{dissected};
ghost use Rattle.ip_dissect.specs.End.{has_error};
ghost use Rattle.ip_filter.specs.Flags.{AreKnown};
ghost use Rattle.ip_filter.specs.OptionTypes.{AreTypesOf};
ghost use Rattle.ip_filter.specs.Reached.{IsLedTo, IsReached};
ghost use Rattle.ip_filter.specs.Tests.{meets};
ghost use Rattle.ip_filter.specs.Program.{tests_of, passes};

use crate::facts::Facts;
use crate::flags::Flags;
use crate::meets::kind;
use crate::option_types::OptionTypes;
use crate::plain::run_plain;
use crate::{Filter, Test};
use ip_dissect::{Packet, PacketStart, PacketVisitor, Visited};

/// The index at which a packet has passed.
pub(crate) const PASSED: usize = 64;

impl Filter {
    /// Returns whether the packet at the start of `bytes` passes, which may be any bytes.
    #[inline(always)]
    pub fn matches(&self, bytes: &[u8]) -> bool
        ensures { result ≡ passes (tests_of self.now) (λ x. meets x (dissected bytes.now)) }
    {
        run_on(self.used_tests(), bytes)
    }

    /// Returns the tests that are used, at most 64.
    #[inline(always)]
    pub fn used_tests(&self) -> &[Test]
        ensures tests { result.now ≡ tests_of self.now }
        ensures len { length result.now ≤ 64 }
    {
        &self.tests[..self.count.min(64)]
    }
}

/// How far tests lead a packet.
#[derive(Clone, Copy)]
pub(crate) enum Reached {
    /// Past all tests: whether it passes.
    End(bool),
    /// To the test with this index, which needs to know more of the packet.
    Next(usize),
}

/// Returns whether the packet at the start of `bytes` passes the tests. One test of flags or of the protocol number has its
/// own path, on which a plain packet's other parts need not be known.
#[inline(always)]
pub(crate) fn run_on(tests: &[Test], bytes: &[u8]) -> bool
    requires { length tests.now ≤ 64 }
    ensures { result ≡ passes tests.now (λ x. meets x (dissected bytes.now)) }
{
    if tests.len() == 1 && tests[0].is_of_numbers() {
        return run_one(&tests[0], bytes);
    }
    run_all(tests, bytes)
}

/// Returns whether the packet passes this only test, which is one of flags or of the protocol number.
#[inline(always)]
fn run_one(test: &Test, bytes: &[u8]) -> bool
    requires { ((test.now.kind == 1) || (test.now.kind == 2) || (test.now.kind == 27)) ≡ true }
    ensures { result ≡ passes (test.now ∷ []) (λ x. meets x (dissected bytes.now)) }
{
    match Packet::visit(bytes, &mut OneTester { test }) {
        Visited::Plain(passed) => passed,
        Visited::Slow(passed) => passed,
    }
}

/// Returns whether the packet passes the tests. Plain packets of both versions are tested in one place: most of their flags
/// are known at compile time.
#[inline(never)]
fn run_all(tests: &[Test], bytes: &[u8]) -> bool
    requires { length tests.now ≤ 64 }
    ensures { result ≡ passes tests.now (λ x. meets x (dissected bytes.now)) }
{
    match Packet::visit(bytes, &mut Tester { tests }) {
        Visited::Plain(packet) => {
            let flags = Flags::none().of(&packet);
            run_plain(tests, &Facts { packet, flags })
        }
        Visited::Slow(passed) => passed,
    }
}

/// Runs tests that the base header decides on a packet, up to the first test that is not one.
#[inline(always)]
fn run_by_base(tests: &[Test], start: &PacketStart<'_>) -> Reached
    requires few { length tests.now ≤ 64 }
    ensures { IsReached tests.now (λ x. meets x (dissected start.now.bytes.now)) result }
{
    let mut next = 0;
    'tests: while next < tests.len() {
        let test = &tests[next];
        let Some(after) = test.index_by_base(start) else {
            return Reached::Next(next);
        };
        if after <= next {
            return Reached::End(false);
        }
        next = after;
    }
    Reached::End(next == PASSED)
}

/// Walks a packet that the tests led to the one with the index `first`, and returns whether it passes.
#[inline(always)]
fn walk_from(tests: &[Test], first: usize, start: PacketStart<'_>) -> bool
    requires few { length tests.now ≤ 64 }
    requires led { IsLedTo tests.now (λ x. meets x (dissected start.bytes.now)) first }
    ensures { result ≡ passes tests.now (λ x. meets x (dissected start.entry.bytes.now)) }
{
    let mut flags = Flags::none();
    let packet = start.walk(&mut flags);
    let flags = flags.of(&packet);
    run_on_packet(tests, first, packet, flags)
}

/// Returns whether a packet passes that has these flags, and which the tests led to the one with the index `first`. Early
/// tests come first: they need no part of the packet to be stored.
#[inline(always)]
fn run_on_packet(tests: &[Test], first: usize, packet: Packet<'_>, flags: Flags) -> bool
    requires few { length tests.now ≤ 64 }
    requires led { IsLedTo tests.now (λ x. meets x (dissected packet.bytes.now)) first }
    requires flags { AreKnown (dissected packet.bytes.now) flags }
    ensures { result ≡ passes tests.now (λ x. meets x (dissected packet.entry.bytes.now)) }
{
    match run_early(tests, first, &packet, flags) {
        Reached::End(passed) => passed,
        Reached::Next(next) => run_stored(tests, next, &Facts { packet, flags }),
    }
}

/// Runs early tests on a packet, from the one with the index `first` up to the first test that is not one.
#[inline(always)]
fn run_early(tests: &[Test], first: usize, packet: &Packet<'_>, flags: Flags) -> Reached
    requires few { length tests.now ≤ 64 }
    requires led { IsLedTo tests.now (λ x. meets x (dissected packet.now.bytes.now)) first }
    requires flags { AreKnown (dissected packet.now.bytes.now) flags }
    ensures { IsReached tests.now (λ x. meets x (dissected packet.now.bytes.now)) result }
{
    let mut next = first;
    'tests: while next < tests.len() {
        let test = &tests[next];
        let Some(after) = test.index_early(packet, flags) else {
            return Reached::Next(next);
        };
        if after <= next {
            return Reached::End(false);
        }
        next = after;
    }
    Reached::End(next == PASSED)
}

/// A visitor that runs the only test, which is one of flags or of the protocol number. A plain packet of each version is
/// tested in a place of its own, where fewer of its parts are computed.
#[derive(Clone, Copy, Debug)]
struct OneTester<'t> {
    test: &'t Test,
    ghost kind: { ((test.now.kind == 1) || (test.now.kind == 2) || (test.now.kind == 27)) ≡ true },
}

impl<'a> PacketVisitor<'a> for OneTester<'_> {
    type Plain = bool;

    type Slow = bool;

    ghost plain = { λ old s new passed.
        passed ≡ ((if meets old.test.now (dissected s) then old.test.now.if_met else old.test.now.if_not)
        == 64) };

    ghost slow = { λ old s new passed.
        passed ≡ ((if meets old.test.now (dissected s) then old.test.now.if_met else old.test.now.if_not)
        == 64) };

    #[inline(always)]
    fn visit_plain(&mut self, packet: Packet<'a>) -> bool {
        let flags = Flags::none().of(&packet);
        self.test
            .has_passed(self.test.is_met_by_numbers(&packet, flags))
    }

    #[inline(always)]
    fn visit_slow(&mut self, start: PacketStart<'a>) -> bool {
        let mut flags = Flags::none();
        let packet = start.walk(&mut flags);
        let flags = flags.of(&packet);
        self.test
            .has_passed(self.test.is_met_by_numbers(&packet, flags))
    }
}

/// A visitor that runs tests on packets that aren't plain.
#[derive(Clone, Copy, Debug)]
struct Tester<'t> {
    tests: &'t [Test],
    ghost few: { length tests.now ≤ 64 },
}

impl<'a> PacketVisitor<'a> for Tester<'_> {
    type Plain = Packet<'a>;

    type Slow = bool;

    ghost plain = { λ old s new packet. packet.bytes.now ≡ s };

    ghost slow = { λ old s new passed.
        passed ≡ passes old.tests.now (λ x. meets x (dissected s)) };

    #[inline(always)]
    fn visit_plain(&mut self, packet: Packet<'a>) -> Packet<'a> {
        packet
    }

    #[inline(always)]
    fn visit_slow(&mut self, start: PacketStart<'a>) -> bool {
        match run_by_base(self.tests, &start) {
            Reached::End(passed) => passed,
            Reached::Next(next) => walk_from(self.tests, next, start),
        }
    }
}

/// Returns whether a packet passes whose parts are stored, and which the tests led to the one with the index `first`.
#[inline(never)]
fn run_stored(tests: &[Test], first: usize, facts: &Facts<'_>) -> bool
    requires few { length tests.now ≤ 64 }
    requires led { IsLedTo tests.now (λ x. meets x (dissected facts.now.packet.bytes.now)) first }
    ensures { result ≡ passes tests.now (λ x. meets x (dissected facts.now.packet.bytes.now)) }
{
    let mut next = first;
    'tests: while next < tests.len() {
        let test = &tests[next];
        if test.kind == kind::OPTION {
            return run_with_options(tests, next, facts);
        }
        let after = test.next_index(test.is_met(facts));
        if after <= next {
            return false;
        }
        next = after;
    }
    next == PASSED
}

/// Returns whether a packet passes whose parts are stored, and which the tests led to the one with the index `first`. Its
/// options are walked once, for all tests that follow.
#[inline(never)]
fn run_with_options(tests: &[Test], first: usize, facts: &Facts<'_>) -> bool
    requires few { length tests.now ≤ 64 }
    requires led { IsLedTo tests.now (λ x. meets x (dissected facts.now.packet.bytes.now)) first }
    ensures { result ≡ passes tests.now (λ x. meets x (dissected facts.now.packet.bytes.now)) }
{
    let types = facts.option_types();
    let mut next = first;
    'tests: while next < tests.len() {
        let test = &tests[next];
        let after = test.next_index(test.is_met_with(facts, &types));
        if after <= next {
            return false;
        }
        next = after;
    }
    next == PASSED
}

impl Test {
    /// Returns whether a packet meets the test whose options have these types.
    #[inline(never)]
    fn is_met_with(&self, facts: &Facts<'_>, types: &OptionTypes) -> bool
        requires { AreTypesOf (dissected facts.now.packet.bytes.now).headers types.now }
        ensures { result ≡ meets self.now (dissected facts.now.packet.bytes.now) }
    {
        if self.kind == kind::OPTION {
            types.has(self.number)
        } else {
            self.is_met(facts)
        }
    }
}
