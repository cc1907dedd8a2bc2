//! Early tests: those of flags, of the protocol number that follows the headers, and of the base header. They need no part of
//! a packet but its base header, the number and the flags.
ghost use Rattle.std.specs.Prelude.{◌≡◌, ◌==◌, ◌&&◌, ◌||◌, true, if◌then◌else◌, IfSome};
ghost use Rattle.ip_dissect.specs.Dissection.{dissected};
ghost use Rattle.ip_filter.specs.Flags.{AreKnown};
ghost use Rattle.ip_filter.specs.Tests.{meets};
ghost use Rattle.ip_filter.specs.Truth.{has_base};

use crate::Test;
use crate::by_base::start_of;
use crate::flags::{Flags, has_one_of};
use crate::meets::kind;
use crate::run::PASSED;
use ip_dissect::Packet;

impl Test {
    /// Returns whether the test is one of flags or of the protocol number.
    #[inline(always)]
    pub(crate) fn is_of_numbers(&self) -> bool
        ensures { result ≡ ((self.now.kind == 1) || (self.now.kind == 2) || (self.now.kind == 27)) }
    {
        matches!(
            self.kind,
            kind::FLAGS | kind::LEADS_TO | kind::VERSION_LEADS_TO
        )
    }

    /// Returns whether a packet meets the test, which is one of flags or of the protocol number.
    #[inline(always)]
    pub(crate) fn is_met_by_numbers(&self, packet: &Packet<'_>, flags: Flags) -> bool
        requires kind { ((self.now.kind == 1) || (self.now.kind == 2) || (self.now.kind == 27)) ≡ true }
        requires flags { AreKnown (dissected packet.now.bytes.now) flags }
        ensures { result ≡ meets self.now (dissected packet.now.bytes.now) }
    {
        match self.kind {
            kind::FLAGS => has_one_of(packet, flags, self.number),
            kind::LEADS_TO => self.leads_to(packet),
            _ => self.version_leads_to(packet),
        }
    }

    /// Returns whether a packet passes that meets this only test or doesn't. One of two results is selected: a branch on
    /// `is_met` would often be mispredicted.
    #[inline(always)]
    pub(crate) fn has_passed(&self, is_met: bool) -> bool
        ensures { result ≡ ((if is_met then self.now.if_met else self.now.if_not) == 64) }
    {
        let if_met = usize::from(self.if_met) == PASSED;
        let if_not = usize::from(self.if_not) == PASSED;
        (is_met & if_met) | (!is_met & if_not)
    }

    /// Returns the index to which the test leads a packet, if it is an early one.
    #[inline(always)]
    pub(crate) fn index_early(&self, packet: &Packet<'_>, flags: Flags) -> Option<usize>
        requires { AreKnown (dissected packet.now.bytes.now) flags }
        ensures { IfSome result (λ i. i ≡ (if meets self.now (dissected packet.now.bytes.now)
            then self.now.if_met else self.now.if_not)) }
    {
        match self.kind {
            kind::FLAGS => Some(self.next_index(has_one_of(packet, flags, self.number))),
            kind::LEADS_TO => Some(self.next_index(self.leads_to(packet))),
            kind::VERSION_LEADS_TO => Some(self.next_index(self.version_leads_to(packet))),
            _ => self.index_by_base(&start_of(packet)),
        }
    }

    /// Returns the index to which the test leads a packet that meets it or doesn't.
    #[inline(always)]
    pub(crate) fn next_index(&self, is_met: bool) -> usize
        ensures { result ≡ (if is_met then self.now.if_met else self.now.if_not) }
    {
        if is_met {
            usize::from(self.if_met)
        } else {
            usize::from(self.if_not)
        }
    }

    /// Returns whether the headers of the packet lead to the protocol number of the test.
    #[inline(always)]
    pub(crate) fn leads_to(&self, packet: &Packet<'_>) -> bool
        ensures { result ≡ (has_base (dissected packet.now.bytes.now)
            && ((dissected packet.now.bytes.now).number == self.now.number)) }
    {
        let summary = &packet.summary;
        summary.version != 0 && u64::from(summary.next_header.0) == self.number
    }

    /// Returns whether the packet has the version of the test, and its headers lead to the protocol number of the test.
    #[inline(always)]
    pub(crate) fn version_leads_to(&self, packet: &Packet<'_>) -> bool
        ensures { result ≡ (((dissected packet.now.bytes.now).version == self.now.version)
            && ((dissected packet.now.bytes.now).number == self.now.number)) }
    {
        let summary = &packet.summary;
        summary.version == self.version && u64::from(summary.next_header.0) == self.number
    }
}
