//! Tests of plain packets: those without extension headers that are no fragment and have no error.
ghost use Rattle.std.specs.Prelude.{◌≡◌, ◌≤◌, length, true, if◌then◌else◌};
ghost use Rattle.ip_dissect.specs.Dissection.{dissected};
ghost use Rattle.ip_dissect.specs.Summary.{is_plain};
ghost use Rattle.ip_filter.specs.Tests.{meets};
ghost use Rattle.ip_filter.specs.Program.{passes};

use crate::by_base::start_of;
use crate::facts::Facts;
use crate::flags::has_one_of;
use crate::meets::kind;
use crate::run::PASSED;
use crate::{Quantity, Test};

/// Returns whether a plain packet passes the tests. All of them are run in line, so its parts stay in registers: none has to be
/// stored for a call, nor looked at to see that there is no header and no error.
#[inline(always)]
pub(crate) fn run_plain(tests: &[Test], facts: &Facts<'_>) -> bool
    requires few { length tests.now ≤ 64 }
    requires plain { is_plain (dissected facts.now.packet.bytes.now) ≡ true }
    ensures { result ≡ passes tests.now (λ x. meets x (dissected facts.now.packet.bytes.now)) }
{
    let mut next = 0;
    'tests: while next < tests.len() {
        let after = tests[next].index_for_plain(facts);
        if after <= next {
            return false;
        }
        next = after;
    }
    next == PASSED
}

impl Test {
    /// Returns the index to which the test leads a plain packet.
    #[inline(always)]
    fn index_for_plain(&self, facts: &Facts<'_>) -> usize
        requires { is_plain (dissected facts.now.packet.bytes.now) ≡ true }
        ensures { result ≡ (if meets self.now (dissected facts.now.packet.bytes.now) then self.now.if_met
            else self.now.if_not) }
    {
        self.next_index(self.is_met_by_plain(facts))
    }

    /// Returns whether a plain packet meets the test.
    #[inline(always)]
    fn is_met_by_plain(&self, facts: &Facts<'_>) -> bool
        requires { is_plain (dissected facts.now.packet.bytes.now) ≡ true }
        ensures { result ≡ meets self.now (dissected facts.now.packet.bytes.now) }
    {
        match self.kind {
            kind::FLAGS => has_one_of(&facts.packet, facts.flags, self.number),
            kind::LEADS_TO => self.leads_to(&facts.packet),
            kind::VERSION_LEADS_TO => self.version_leads_to(&facts.packet),
            kind::HEADERS => self.compares(Quantity::Headers, facts),
            kind::CHAIN_BYTES => self.compares(Quantity::ChainBytes, facts),
            kind::PAYLOAD => self.compares(Quantity::Payload, facts),
            kind::LENGTH | kind::WIRE_LENGTH => self.compares(Quantity::Length, facts),
            kind::HOP_LIMIT => self.compares(Quantity::HopLimit, facts),
            kind::DSCP => self.compares(Quantity::Dscp, facts),
            kind::ECN => self.compares(Quantity::Ecn, facts),
            kind::FLOW_LABEL => self.compares(Quantity::FlowLabel, facts),
            kind::NO_LENGTH => facts.lacks_length(),
            kind::BASE_ACCESS => self.reads(facts.bytes_of_version(self.version)),
            kind::IDENTIFICATION => facts.has_identification(self.number),
            kind::SOURCE => self.has_source(&start_of(&facts.packet)),
            kind::DESTINATION => self.has_destination(&start_of(&facts.packet)),
            kind::EITHER => self.has_either(&start_of(&facts.packet)),
            // of an authentication header there is none
            kind::SECURITY_PARAMETERS => self.has_esp_spi(facts),
            // asked of an extension header
            kind::OPTION => false,
            kind::ROUTING_TYPE => false,
            kind::SEGMENTS_LEFT => false,
            // asked of an error
            kind::LAYER => false,
            _ => self.is_met_in_payload(facts),
        }
    }
}
