//! What a term says of a packet.
ghost use Rattle.std.specs.Prelude.{◌≡◌};
ghost use Rattle.ip_dissect.specs.Dissection.{dissected};
ghost use Rattle.ip_filter.specs.Truth.{compares, holds, kind_index};

use crate::run::run_on;
use crate::{Comparison, FaultKind, Term, Test};

impl Comparison {
    /// Returns whether the count compares so with the number.
    pub fn holds(self, count: u64, number: u64) -> bool
        ensures { result ≡ compares self count number }
    {
        match self {
            Comparison::Equal => count == number,
            Comparison::NotEqual => count != number,
            Comparison::Less => count < number,
            Comparison::AtMost => count <= number,
            Comparison::Greater => count > number,
            Comparison::AtLeast => count >= number,
        }
    }
}

/// Returns the number of a kind.
#[inline(always)]
pub(crate) fn kind_index(kind: FaultKind) -> u8
    ensures { result ≡ kind_index kind }
{
    match kind {
        FaultKind::TooShort => 0,
        FaultKind::HopByHopNotAtStart => 1,
        FaultKind::ZeroPayloadLen => 2,
        FaultKind::UnsupportedIpVersion => 3,
        FaultKind::Ipv4HeaderLength => 4,
    }
}

impl Term {
    /// Returns whether the term holds of the packet at the start of `bytes`, which may be any bytes.
    pub fn holds(&self, bytes: &[u8]) -> bool
        ensures { result ≡ holds self.now (dissected bytes.now) }
    {
        run_on(&[Test::of(*self)], bytes)
    }
}
