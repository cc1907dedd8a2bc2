//! A fragment offset.
ghost use Rattle.std.specs.Prelude.{◌≡◌, ◌≤◌, ◌↔◌, ℕ, IsOk, IfOk, IfErr};
ghost use Rattle.ip_base.specs.Fragment.{MAX_FRAGMENT_OFFSET};

use crate::err::ValueTooBigError;
use std::marker::Model;

/// A fragment offset: 13 bits, in units of 8 bytes (RFC 8200, section 4.5). In a contract it is its number.
#[derive(Clone, Copy, Debug, PartialEq, Eq, Hash)]
pub struct IpFragOffset(u16);

impl Model for IpFragOffset {
    ghost Value = { ℕ };

    ghost view = { λ offset. offset.0 };

    ghost invariant = { λ offset. offset.0 ≤ MAX_FRAGMENT_OFFSET };

    ghost inverse = { λ n. record { 0 = n } };
}

impl IpFragOffset {
    /// The largest offset.
    pub const MAX_U16: u16 = 0x1fff;

    /// Returns the offset with this value, or an error if the value exceeds 13 bits.
    pub fn try_new(value: u16) -> Result<IpFragOffset, ValueTooBigError>
        ensures fits { IsOk result ↔ (value ≤ MAX_FRAGMENT_OFFSET) }
        ensures value { IfOk result (λ offset. offset ≡ value) }
        ensures too_big { IfErr result (λ e.
            e ≡ record { actual = value; max_allowed = MAX_FRAGMENT_OFFSET }) }
    {
        if value > Self::MAX_U16 {
            return Err(ValueTooBigError {
                actual: value,
                max_allowed: Self::MAX_U16,
            });
        }
        Ok(IpFragOffset(value))
    }

    /// Returns the offset, in units of 8 bytes.
    pub fn value(self) -> u16
        ensures value { result ≡ self }
        ensures fits { result ≤ MAX_FRAGMENT_OFFSET }
    {
        self.0
    }
}

impl TryFrom<u16> for IpFragOffset {
    type Error = ValueTooBigError;

    ghost use Rattle.std.specs.Prelude.{◌≡◌, ◌≤◌, ◌<◌, MatchResult};

    ghost try_from_gives = { λ value result. MatchResult result
        (λ offset. (value ≤ MAX_FRAGMENT_OFFSET) × (offset ≡ value))
        (λ e. (MAX_FRAGMENT_OFFSET < value)
        × (e ≡ record { actual = value; max_allowed = MAX_FRAGMENT_OFFSET })) };

    fn try_from(value: u16) -> Result<IpFragOffset, ValueTooBigError>
        ensures fits { IsOk result ↔ (value ≤ MAX_FRAGMENT_OFFSET) }
        ensures value { IfOk result (λ offset. offset ≡ value) }
        ensures too_big { IfErr result (λ e.
            e ≡ record { actual = value; max_allowed = MAX_FRAGMENT_OFFSET }) }
    {
        IpFragOffset::try_new(value)
    }
}
