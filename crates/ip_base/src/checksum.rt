//! The internet checksum, and words of 16 bits.
ghost use Rattle.std.specs.Prelude.{◌≡◌, ◌≤◌, ◌<◌, ◌+◌, ◌*◌, length, slice_index};
ghost use Rattle.ip_base.specs.Checksum.{add_ones, word_of, checksum_of, with_word};

/// Stores a number of 16 bits at an index, in network byte order. The other bytes stay as they are.
#[inline(always)]
pub fn put_word(bytes: &mut [u8], index: usize, word: u16)
    requires { index + 1 < length bytes.old }
    ensures { bytes.new ≡ with_word bytes.old index word }
{
    bytes[index] = (word / 256) as u8;
    bytes[index + 1] = (word % 256) as u8;
}

/// Returns the one's complement sum of two numbers of 16 bits.
#[inline(always)]
fn add_ones(a: u32, b: u32) -> u32
    requires a { a ≤ 65535 }
    requires b { b ≤ 65535 }
    ensures sum { result ≡ add_ones a b }
    ensures fits { result ≤ 65535 }
{
    let sum = a + b;
    if sum > 65535 { sum - 65535 } else { sum }
}

/// Returns the byte at an index, or 0 if there is none.
#[inline(always)]
fn byte_at(bytes: &[u8], index: usize) -> u32
    ensures byte { result ≡ slice_index bytes.now index }
    ensures fits { result ≤ 255 }
{
    match bytes.get(index) {
        Some(byte) => u32::from(*byte),
        None => 0,
    }
}

/// Returns the word of 2 bytes with this index, with a zero after the last byte of an odd number.
#[inline(always)]
fn word_of(bytes: &[u8], index: usize) -> u32
    requires { 2 * index < length bytes.now }
    ensures word { result ≡ word_of bytes.now index }
    ensures fits { result ≤ 65535 }
{
    256 * u32::from(bytes[2 * index]) + byte_at(bytes, 2 * index + 1)
}

/// Returns the internet checksum of bytes: the one's complement of the one's complement sum of their words of 16 bits, with
/// a zero after the last byte of an odd number (RFC 1071, section 1).
///
/// A header whose checksum field is zero gets the checksum to store there; the checksum of a header with it is 0.
pub fn internet_checksum(bytes: &[u8]) -> u16
    ensures { result ≡ checksum_of bytes.now }
{
    let mut sum = 0;
    'words: for index in 0..(bytes.len() + 1) / 2 {
        sum = add_ones(sum, word_of(bytes, index));
    }
    (65535 - sum) as u16
}
