//! A key with its count.
ghost use Rattle.std.specs.Prelude.{◌≡◌, ◌≤◌, length};
ghost use Rattle.ip_key_counts.specs.Counts.{has_bytes};
ghost use Rattle.ip_key_counts.specs.Entry.{key_in, unused_entry};

/// The maximum number of bytes in a key.
pub const MAX_KEY_LEN: usize = 67;

/// An entry of a table: a key with its count.
///
/// It consists of numbers alone, so that it can lie in memory of other languages.
#[repr(C)]
#[derive(Clone, Copy, Debug)]
pub struct CountedKey {
    /// How often the key was counted.
    pub count: u64,
    /// One more than the index of the last entry before this one whose key is in the same bucket; 0 if there is none.
    pub(crate) older: u32,
    /// The number of bytes in the key.
    len: u8,
    /// The key, and bytes that don't matter.
    bytes: [u8; MAX_KEY_LEN],
}

impl CountedKey {
    /// Returns an entry of no use yet, for the memory of a table.
    pub fn unused() -> CountedKey
        ensures { result ≡ unused_entry }
    {
        CountedKey {
            count: 0,
            older: 0,
            len: 0,
            bytes: [0; MAX_KEY_LEN],
        }
    }

    /// Returns the key.
    #[inline(always)]
    pub fn key(&self) -> &[u8]
        ensures { result.now ≡ key_in self.now }
    {
        &self.bytes[..usize::from(self.len).min(MAX_KEY_LEN)]
    }

    /// Returns whether this is the key.
    #[inline(always)]
    pub(crate) fn has_key(&self, key: &[u8]) -> bool
        ensures { result ≡ has_bytes (key_in self.now) key.now }
    {
        self.key() == key
    }

    /// Makes it the entry of a key with this count.
    #[inline(always)]
    pub(crate) fn hold(&mut self, key: &[u8], count: u64, older: u32)
        requires { length key.now ≤ MAX_KEY_LEN }
        ensures key { key_in self.new ≡ key.now }
        ensures count { self.new.count ≡ count }
        ensures older { self.new.older ≡ older }
    {
        self.count = count;
        self.older = older;
        self.len = key.len() as u8;
        self.bytes[..key.len()].copy_from_slice(key);
    }
}
