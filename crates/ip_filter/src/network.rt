//! A network of IPv4 or IPv6 addresses.
ghost use Rattle.std.specs.Prelude.{◌≡◌, ◌<◌, ◌/◌, ◌%◌, ◌^◌, ◌-◌};
ghost use Rattle.ip_filter.specs.Network.{begin_alike, ipv4_lies_in, ipv6_lies_in};

/// A range of addresses: those that begin with the first `len` bits of an address. A length above the number of the
/// address's bits means all of them.
#[derive(Clone, Copy, Debug, PartialEq, Eq)]
pub enum Network {
    /// IPv4 addresses.
    Ipv4 {
        /// An address in the network, as a number in network byte order.
        address: u32,
        /// How many bits count.
        len: u8,
    },
    /// IPv6 addresses.
    Ipv6 {
        /// An address in the network, as a number in network byte order.
        address: u128,
        /// How many bits count.
        len: u8,
    },
}

impl Network {
    /// Returns whether the IPv4 address lies in the network.
    #[inline(always)]
    pub fn has_ipv4(&self, address: u32) -> bool
        ensures { result ≡ ipv4_lies_in self.now address }
    {
        match *self {
            Network::Ipv4 {
                address: other,
                len,
            } => begin_alike(
                u64::from(address),
                u64::from(other),
                32u8.saturating_sub(len),
            ),
            Network::Ipv6 { .. } => false,
        }
    }

    /// Returns whether the IPv6 address lies in the network.
    #[inline(always)]
    pub fn has_ipv6(&self, address: u128) -> bool
        ensures { result ≡ ipv6_lies_in self.now address }
    {
        match *self {
            Network::Ipv6 {
                address: other,
                len,
            } => ipv6_begin_alike(address, other, len),
            Network::Ipv4 { .. } => false,
        }
    }
}

/// Returns whether the first `len` bits of two IPv6 addresses are equal. Up to 64 bits only their first halves are compared, and
/// no number of 128 bits is ever shifted.
#[inline(always)]
fn ipv6_begin_alike(address: u128, other: u128, len: u8) -> bool
    ensures { result ≡ begin_alike (128 - len) address other }
{
    let (first, last) = halves(address);
    let (other_first, other_last) = halves(other);
    match len {
        0 => true,
        1..=64 => begin_alike(first, other_first, 64 - len),
        _ => { (first == other_first) & begin_alike(last, other_last, 128u8.saturating_sub(len)) }
    }
}

/// Returns whether the numbers are equal but for their last `ignored` bits.
#[inline(always)]
fn begin_alike(number: u64, other: u64, ignored: u8) -> bool
    requires { ignored < 64 }
    ensures { result ≡ begin_alike ignored number other }
{
    number >> ignored == other >> ignored
}

/// Returns the first and the last 64 bits of an IPv6 address.
#[inline(always)]
fn halves(address: u128) -> (u64, u64)
    ensures first { result.0 ≡ address / 2 ^ 64 }
    ensures last { result.1 ≡ address % 2 ^ 64 }
{
    ((address >> 64) as u64, (address % (1 << 64)) as u64)
}
