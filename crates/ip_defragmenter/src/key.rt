//! What all fragments of a packet have in common.

ghost use Rattle.std.specs.Prelude.{◌≡◌, ◌<◌, ◌+◌, ◌*◌, length};
ghost use Rattle.ip_defragmenter.specs.Key.{IsKey, hash_of, word_at, long_at};

use ip_base::IpNumber;
use ip_hash::sip_hash;

/// What all fragments of one packet have in common, and those of two packets don't (RFC 791, section 3.2; RFC 8200,
/// section 4.5).
#[derive(Clone, Copy, Debug, PartialEq, Eq)]
pub enum FragmentKey {
    /// Of an IPv4 packet.
    Ipv4 {
        /// The source address.
        source: [u8; 4],
        /// The destination address.
        destination: [u8; 4],
        /// The protocol number of the payload.
        protocol: IpNumber,
        /// The identification.
        identification: u16,
    },
    /// Of an IPv6 packet.
    Ipv6 {
        /// The source address.
        source: [u8; 16],
        /// The destination address.
        destination: [u8; 16],
        /// The identification.
        identification: u32,
    },
}

/// Returns the word of 4 bytes at an index, in network byte order.
#[inline(always)]
fn word_at(bytes: &[u8], index: usize) -> u32
    requires { index + 3 < length bytes.now }
    ensures { result ≡ word_at bytes.now index }
{
    u32::from_be_bytes([
        bytes[index],
        bytes[index + 1],
        bytes[index + 2],
        bytes[index + 3],
    ])
}

/// Returns two words of 4 bytes as one of 8 bytes.
#[inline(always)]
fn joined(high: u32, low: u32) -> u64
    ensures { result ≡ 4294967296 * high + low }
{
    4_294_967_296 * u64::from(high) + u64::from(low)
}

/// Returns the word of 8 bytes at an index, in network byte order.
#[inline(always)]
fn long_at(bytes: &[u8; 16], index: usize) -> u64
    requires { index < 9 }
    ensures long { result ≡ long_at bytes.now index }
    ensures len { length bytes.now ≡ 16 }
{
    joined(word_at(bytes, index), word_at(bytes, index + 4))
}

/// Returns the numbers in a key of IPv4 as one.
#[inline(always)]
fn ipv4_number(protocol: u8, identification: u16) -> u32
    ensures { result ≡ 65536 * protocol + identification }
{
    65536 * u32::from(protocol) + u32::from(identification)
}

impl FragmentKey {
    /// Returns the hash of the key in a context, by a seed that only the caller knows.
    #[inline(always)]
    pub(crate) fn hash(&self, seed: &[u64; 2], context: u32) -> u64
        ensures hash { result ≡ hash_of seed.now context self.now }
        ensures key { IsKey self.now }
    {
        match self {
            FragmentKey::Ipv4 {
                source,
                destination,
                protocol,
                identification,
            } => sip_hash(
                seed,
                &[
                    joined(word_at(source, 0), word_at(destination, 0)),
                    joined(context, ipv4_number(protocol.0, *identification)),
                ],
            ),
            FragmentKey::Ipv6 {
                source,
                destination,
                identification,
            } => sip_hash(
                seed,
                &[
                    long_at(source, 0),
                    long_at(source, 8),
                    long_at(destination, 0),
                    long_at(destination, 8),
                    joined(context, *identification),
                ],
            ),
        }
    }
}
