//! The bytes of a key, as they are appended.
ghost use Rattle.std.specs.Prelude.{◌≡◌, ◌+◌, ◌≤◌, ◌<◌, ◌++◌, ◌∷◌, [], ℕ, List, length, IfSome, None};
ghost use Rattle.ip_key_counts.specs.declared.counted_key.TheConstants.{MAX_KEY_LEN};
ghost use Rattle.ip_chain_counts.specs.KeyBytes.{HasBytes};

use ip_key_counts::MAX_KEY_LEN;

/// The bytes of a key, unless they are too many.
#[derive(Clone, Copy, Debug)]
pub(crate) struct KeyBytes {
    /// How many there are; one more than there is room for if they are too many.
    len: usize,
    bytes: [u8; MAX_KEY_LEN],
}

impl KeyBytes {
    /// Returns no bytes.
    #[inline(always)]
    pub(crate) fn new() -> KeyBytes
        ensures { HasBytes result [] }
    {
        KeyBytes {
            len: 0,
            bytes: [0; MAX_KEY_LEN],
        }
    }

    /// Returns the path with room for three bytes after it.
    #[inline(always)]
    pub(crate) fn after(path: &[u8]) -> KeyBytes
        ensures { HasBytes result (path.now ++ 0 ∷ 0 ∷ 0 ∷ []) }
    {
        let mut key = KeyBytes::new();
        key.extend(path);
        key.push(0);
        key.push(0);
        key.push(0);
        key
    }

    /// Appends a byte.
    #[inline(always)]
    pub(crate) fn push(&mut self, byte: u8)
        ensures { (xs : List ℕ) → HasBytes self.old xs → HasBytes self.new (xs ++ byte ∷ []) }
    {
        if self.len < MAX_KEY_LEN {
            self.bytes[self.len] = byte;
            self.len += 1;
        } else {
            self.len = MAX_KEY_LEN + 1;
        }
    }

    /// Appends bytes.
    #[inline(always)]
    pub(crate) fn extend(&mut self, bytes: &[u8])
        ensures { (xs : List ℕ) → HasBytes self.old xs → HasBytes self.new (xs ++ bytes.now) }
    {
        'bytes: for byte in bytes {
            self.push(*byte);
        }
    }

    /// Replaces the three bytes at an index, unless the bytes are too many.
    #[inline(always)]
    pub(crate) fn put(&mut self, index: usize, first: u8, second: u8, third: u8)
        ensures { (xs ys : List ℕ) → index ≡ length xs → HasBytes self.old (xs ++ 0 ∷ 0 ∷ 0 ∷ ys)
            → HasBytes self.new (xs ++ first ∷ second ∷ third ∷ ys) }
    {
        if index <= MAX_KEY_LEN - 3 {
            self.bytes[index] = first;
            self.bytes[index + 1] = second;
            self.bytes[index + 2] = third;
        }
    }

    /// Returns the bytes, or `None` if they are too many.
    #[inline(always)]
    pub(crate) fn get(&self) -> Option<&[u8]>
        ensures there { (xs : List ℕ) → HasBytes self.now xs → IfSome result (λ s. s.now ≡ xs) }
        ensures too_many { (xs : List ℕ) → HasBytes self.now xs → result ≡ None → MAX_KEY_LEN < length xs }
    {
        self.bytes.get(..self.len)
    }
}
