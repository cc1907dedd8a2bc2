//! Runs the tests of a filter on a frame and the packet in it.
ghost use Rattle.std.specs.Prelude.{◌≡◌, ◌≤◌, length, Some, None, IfSome, if◌then◌else◌};
ghost use Rattle.std.specs.List.{list_any};
ghost use Rattle.ip_filter.specs.Frames.{asks_frame, meets_by_frame, meets_in};
ghost use Rattle.ip_filter.specs.Program.{tests_of, passes};
ghost use Rattle.ip_filter.specs.Reached.{IsLedTo, IsReached};

use crate::facts::Facts;
use crate::flags::Flags;
use crate::frame::first_version;
use crate::meets::kind;
use crate::run::{PASSED, Reached, run_on};
use crate::{Filter, Frame, Test};
use ip_dissect::Packet;

impl Filter {
    /// Returns whether a frame passes with the packet at the start of `packet`, which may be any bytes.
    pub fn matches_frame(&self, frame: &Frame, packet: &[u8]) -> bool
        ensures { result ≡ passes (tests_of self.now) (meets_in frame.now (Some packet.now)) }
    {
        let tests = self.used_tests();
        if asks_frames(tests) {
            run_in_frame(tests, frame, packet)
        } else {
            run_on(tests, packet)
        }
    }

    /// Returns whether a frame passes that has no packet: it meets tests that ask the frame alone.
    pub fn matches_other_frame(&self, frame: &Frame) -> bool
        ensures { result ≡ passes (tests_of self.now) (meets_in frame.now None) }
    {
        run_without_packet(self.used_tests(), frame)
    }
}

/// Returns whether one of the tests asks the frame.
fn asks_frames(tests: &[Test]) -> bool
    ensures { result ≡ list_any asks_frame tests.now }
{
    tests.iter().any(|test| test.asks_frame())
}

/// Returns whether a frame passes the tests with its packet.
fn run_in_frame(tests: &[Test], frame: &Frame, packet: &[u8]) -> bool
    requires { length tests.now ≤ 64 }
    ensures { result ≡ passes tests.now (meets_in frame.now (Some packet.now)) }
{
    match run_by_frame(tests, frame, packet) {
        Reached::End(passed) => passed,
        Reached::Next(next) => walk_in_frame(tests, next, frame, packet),
    }
}

/// Runs tests that ask the frame, up to the first test that doesn't.
fn run_by_frame(tests: &[Test], frame: &Frame, packet: &[u8]) -> Reached
    requires { length tests.now ≤ 64 }
    ensures { IsReached tests.now (meets_in frame.now (Some packet.now)) result }
{
    let mut next = 0;
    'tests: while next < tests.len() {
        let test = &tests[next];
        let Some(after) = test.index_by_frame(frame, packet) else {
            return Reached::Next(next);
        };
        if after <= next {
            return Reached::End(false);
        }
        next = after;
    }
    Reached::End(next == PASSED)
}

/// Walks the packet of a frame that the tests led to the one with the index `first`, and returns whether the frame passes.
fn walk_in_frame(tests: &[Test], first: usize, frame: &Frame, packet: &[u8]) -> bool
    requires few { length tests.now ≤ 64 }
    requires led { IsLedTo tests.now (meets_in frame.now (Some packet.now)) first }
    ensures { result ≡ passes tests.now (meets_in frame.now (Some packet.now)) }
{
    let mut flags = Flags::none();
    let packet = Packet::walk(packet, &mut flags);
    let flags = flags.of(&packet);
    run_framed(tests, first, frame, &Facts { packet, flags })
}

/// Returns whether a frame passes whose packet has been walked, and which the tests led to the one with the index `first`.
fn run_framed(tests: &[Test], first: usize, frame: &Frame, facts: &Facts<'_>) -> bool
    requires few { length tests.now ≤ 64 }
    requires led { IsLedTo tests.now (meets_in frame.now (Some facts.now.packet.bytes.now)) first }
    ensures { result ≡ passes tests.now (meets_in frame.now (Some facts.now.packet.bytes.now)) }
{
    let mut next = first;
    'tests: while next < tests.len() {
        let test = &tests[next];
        let after = test.next_index(test.is_met_in(frame, facts));
        if after <= next {
            return false;
        }
        next = after;
    }
    next == PASSED
}

/// Returns whether a frame without a packet passes the tests.
fn run_without_packet(tests: &[Test], frame: &Frame) -> bool
    requires { length tests.now ≤ 64 }
    ensures { result ≡ passes tests.now (meets_in frame.now None) }
{
    let mut next = 0;
    'tests: while next < tests.len() {
        let test = &tests[next];
        let after = test.next_index(test.is_met_without_packet(frame));
        if after <= next {
            return false;
        }
        next = after;
    }
    next == PASSED
}

impl Test {
    /// Returns whether the test asks the frame.
    pub fn asks_frame(&self) -> bool
        ensures { result ≡ asks_frame self.now }
    {
        kind::WIRE_LENGTH <= self.kind && self.kind <= kind::MISMATCHED
    }

    /// Returns the index to which the test leads a frame with this packet, if it asks the frame.
    fn index_by_frame(&self, frame: &Frame, packet: &[u8]) -> Option<usize>
        ensures { IfSome result (λ i. i ≡ (if meets_in frame.now (Some packet.now) self.now
            then self.now.if_met else self.now.if_not)) }
    {
        if !self.asks_frame() {
            return None;
        }
        let is_met = self.is_met_by_frame(frame, first_version(packet));
        Some(self.next_index(is_met))
    }

    /// Returns whether a frame whose packet begins with this version meets the test, which asks the frame.
    fn is_met_by_frame(&self, frame: &Frame, version: u8) -> bool
        ensures { result ≡ meets_by_frame frame.now version self.now }
    {
        match self.kind {
            kind::WIRE_LENGTH => self.compares_number(Some(frame.wire_len)),
            kind::VLAN => frame.has_vlan(),
            kind::VLAN_OF => frame.has_vlan_of(self.number),
            kind::ETHER_TYPE => frame.has_ether_type(self.number),
            kind::MISMATCHED => frame.is_mismatched(version),
            _ => false,
        }
    }

    /// Returns whether a frame and its packet meet the test.
    fn is_met_in(&self, frame: &Frame, facts: &Facts<'_>) -> bool
        ensures { result ≡ meets_in frame.now (Some facts.now.packet.bytes.now) self.now }
    {
        if self.asks_frame() {
            return self.is_met_by_frame(frame, first_version(facts.packet.bytes));
        }
        if self.kind == kind::OPTION {
            return facts.option_types().has(self.number);
        }
        self.is_met(facts)
    }

    /// Returns whether a frame without a packet meets the test.
    fn is_met_without_packet(&self, frame: &Frame) -> bool
        ensures { result ≡ meets_in frame.now None self.now }
    {
        self.asks_frame() && self.is_met_by_frame(frame, 0)
    }
}
