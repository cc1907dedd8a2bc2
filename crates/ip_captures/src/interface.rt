//! The interfaces of a pcapng capture.
ghost use Rattle.std.specs.Prelude.{◌≡◌, ◌≤◌, ◌<◌, ◌+◌, ◌*◌, ◌/◌, ◌^◌, length};
ghost use Rattle.ip_captures.specs.Interface.{interface_in, resolution, shifted, ticks_in, offset_in, time_of};

use crate::ByteOrder;
use crate::options::option_value;

/// What an interface description block says (draft-ietf-opsawg-pcapng, section 4.2).
#[repr(C)]
#[derive(Clone, Copy, Debug, Default, PartialEq, Eq)]
pub struct Interface {
    /// The link type, such as 1 for Ethernet.
    pub link_type: u16,
    /// The length to which packets were truncated, in bytes; 0 if they weren't.
    pub snap_len: u32,
    /// How many ticks of its clock a second has; 0 if 64 bits don't hold the number, so that times aren't known.
    pub ticks_per_second: u64,
    /// The seconds to add to each time, in two's complement.
    pub offset: u64,
}

/// Returns the ticks of a second by the value of if_tsresol, or 0 if 64 bits don't hold them.
pub(crate) fn ticks_per_second(tsresol: u8) -> u64
    ensures { result ≡ resolution tsresol }
{
    let power = if tsresol < 128 {
        10u64.checked_pow(u32::from(tsresol))
    } else {
        2u64.checked_pow(u32::from(tsresol - 128))
    };
    power.unwrap_or(0)
}

impl Interface {
    /// Returns what the interface description block says that is all of `block`.
    pub(crate) fn of_block(order: ByteOrder, block: &[u8]) -> Interface
        requires { 20 ≤ length block.now }
        ensures { result ≡ interface_in order block.now }
    {
        let options = &block[16..block.len() - 4];
        Interface {
            link_type: order.u16_at(block, 8),
            snap_len: order.u32_at(block, 12),
            ticks_per_second: Self::ticks_in(order, options),
            offset: Self::offset_in(order, options),
        }
    }

    /// Returns the ticks of a second that the options state.
    fn ticks_in(order: ByteOrder, options: &[u8]) -> u64
        ensures { result ≡ ticks_in order options.now }
    {
        match option_value(order, 9, options) {
            Some(value) => ticks_per_second(value.first().copied().unwrap_or(0)),
            None => 1_000_000,
        }
    }

    /// Returns the seconds to add that the options state.
    fn offset_in(order: ByteOrder, options: &[u8]) -> u64
        ensures { result ≡ offset_in order options.now }
    {
        match option_value(order, 14, options) {
            Some(value) if value.len() >= 8 => order.u64_at(value, 0),
            _ => 0,
        }
    }

    /// Returns the time of so many ticks in nanoseconds since 1970-01-01 00:00 UTC. Returns `None` if 64 bits don't hold
    /// it, or if the ticks of a second aren't known.
    #[inline]
    pub fn time_of(&self, ticks: u64) -> Option<u64>
        ensures { result ≡ time_of self.now ticks }
    {
        if self.ticks_per_second == 0 {
            return None;
        }
        let seconds = ticks / self.ticks_per_second;
        let fraction = nanoseconds(ticks % self.ticks_per_second, self.ticks_per_second);
        let time = u128::from(seconds) * 1_000_000_000 + u128::from(fraction);
        shifted(time, self.offset)
    }
}

/// Returns how many nanoseconds a part of a second is, rounded down. A product of 64 bits serves for all clocks of 10^10 ticks
/// a second or fewer; no other division of 128 bits would be made without a library.
#[inline]
fn nanoseconds(ticks: u64, ticks_per_second: u64) -> u64
    requires { ticks < ticks_per_second }
    ensures value { result ≡ ticks * 1000000000 / ticks_per_second }
    ensures few { result < 1000000000 }
{
    if ticks <= 18_446_744_073 {
        ticks * 1_000_000_000 / ticks_per_second
    } else {
        nine_digits(ticks, ticks_per_second)
    }
}

/// Returns the first nine digits after the point of a fraction less than 1.
fn nine_digits(numerator: u64, denominator: u64) -> u64
    requires { numerator < denominator }
    ensures value { result ≡ numerator * 1000000000 / denominator }
    ensures few { result < 1000000000 }
{
    let (a, rest_a) = next_digit(0, numerator, denominator);
    let (b, rest_b) = next_digit(a, rest_a, denominator);
    let (c, rest_c) = next_digit(b, rest_b, denominator);
    let (d, rest_d) = next_digit(c, rest_c, denominator);
    let (e, rest_e) = next_digit(d, rest_d, denominator);
    let (f, rest_f) = next_digit(e, rest_e, denominator);
    let (g, rest_g) = next_digit(f, rest_f, denominator);
    let (h, rest_h) = next_digit(g, rest_g, denominator);
    next_digit(h, rest_h, denominator).0
}

/// Returns a quotient with one more digit, and what is left: the next step of a long division.
fn next_digit(quotient: u64, rest: u64, divisor: u64) -> (u64, u64)
    requires less { rest < divisor }
    requires few { quotient < 100000000 }
    ensures divided { result.0 * divisor + result.1 ≡ (quotient * divisor + rest) * 10 }
    ensures less { result.1 < divisor }
    ensures few { result.0 ≤ quotient * 10 + 9 }
{
    let mut left = u128::from(rest) * 10;
    'digits: for digit in 0..10u64 {
        if left < u128::from(divisor) {
            return (quotient * 10 + digit, left as u64);
        }
        left -= u128::from(divisor);
    }
    (quotient, rest)
}

/// Returns a time in nanoseconds so many seconds later, or earlier if they are negative in two's complement.
#[inline]
fn shifted(time: u128, offset: u64) -> Option<u64>
    requires { time < 2 ^ 94 }
    ensures { result ≡ shifted offset time }
{
    let moved = if offset < 1 << 63 {
        time + u128::from(offset) * 1_000_000_000
    } else {
        time.checked_sub(((1u128 << 64) - u128::from(offset)) * 1_000_000_000)?
    };
    u64::try_from(moved).ok()
}
