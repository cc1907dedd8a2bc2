//! SipHash-1-3, a hash function made against keys that a sender chooses.
ghost use Rattle.std.specs.Prelude.{◌≡◌, length};
ghost use Rattle.std.specs.List.{fold};
ghost use Rattle.ip_hash.specs.SipHash.{keyed, sip_round, sip_word, finished, sip_hash};

/// The state of a hash.
#[derive(Clone, Copy, Debug)]
pub(crate) struct Sip {
    v0: u64,
    v1: u64,
    v2: u64,
    v3: u64,
}

/// Returns the state under a key.
#[inline(always)]
fn keyed(key: &[u64; 2]) -> Sip
    ensures { result ≡ keyed key.now }
{
    Sip {
        v0: key[0] ^ 0x736f_6d65_7073_6575,
        v1: key[1] ^ 0x646f_7261_6e64_6f6d,
        v2: key[0] ^ 0x6c79_6765_6e65_7261,
        v3: key[1] ^ 0x7465_6462_7974_6573,
    }
}

/// Returns the state after a round.
#[inline(always)]
fn round(state: Sip) -> Sip
    ensures { result ≡ sip_round state }
{
    let a = state.v0.wrapping_add(state.v1);
    let c = state.v2.wrapping_add(state.v3);
    let b = state.v1.rotate_left(13) ^ a;
    let d = state.v3.rotate_left(16) ^ c;
    let e = c.wrapping_add(b);
    let f = a.rotate_left(32).wrapping_add(d);
    Sip {
        v0: f,
        v1: b.rotate_left(17) ^ e,
        v2: e.rotate_left(32),
        v3: d.rotate_left(21) ^ f,
    }
}

/// Returns the state after a word.
#[inline(always)]
fn with_word(state: Sip, word: u64) -> Sip
    ensures { result ≡ sip_word state word }
{
    let after = round(Sip {
        v0: state.v0,
        v1: state.v1,
        v2: state.v2,
        v3: state.v3 ^ word,
    });
    Sip {
        v0: after.v0 ^ word,
        v1: after.v1,
        v2: after.v2,
        v3: after.v3,
    }
}

/// Returns the hash, after the last word.
#[inline(always)]
fn finished(state: Sip) -> u64
    ensures { result ≡ finished state }
{
    let last = round(round(round(Sip {
        v0: state.v0,
        v1: state.v1,
        v2: state.v2 ^ 0xff,
        v3: state.v3,
    })));
    last.v0 ^ last.v1 ^ last.v2 ^ last.v3
}

/// Returns the hash of words under a key, which is that of their bytes, the lowest of each word first.
#[inline(always)]
pub fn sip_hash(key: &[u64; 2], words: &[u64]) -> u64
    ensures { result ≡ sip_hash key.now words.now }
{
    let state = words
        .iter()
        .fold(keyed(key), |state, word| with_word(state, *word));
    let bytes = 8 * (words.len() % 32) as u64;
    finished(with_word(state, bytes * 0x100_0000_0000_0000))
}

/// Returns the hash of bytes under a key, each as a word.
#[inline(always)]
pub fn sip_hash_bytes(key: &[u64; 2], bytes: &[u8]) -> u64
    ensures { result ≡ sip_hash key.now bytes.now }
{
    let state = bytes.iter().fold(keyed(key), |state, byte| with_word(state, u64::from(*byte)));
    let len = 8 * (bytes.len() % 32) as u64;
    finished(with_word(state, len * 0x100_0000_0000_0000))
}
