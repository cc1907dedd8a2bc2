//! How packets get slots, and when they are given up.

/// After how many nanoseconds a packet that isn't whole is given up by default: 60 seconds (RFC 1122, section 3.3.2; RFC 8200,
/// section 4.5).
pub const DEFAULT_TIMEOUT: u64 = 60_000_000_000;

/// How packets get slots, and when they are given up.
#[repr(C)]
#[derive(Clone, Copy, Debug, PartialEq, Eq)]
pub struct Settings {
    /// The key of the hash that selects slots: two random numbers that senders don't know. It stays the same as long as the
    /// slots are in use.
    pub seed: [u64; 2],
    /// After how many nanoseconds a packet that isn't whole is given up.
    pub timeout: u64,
}

impl Settings {
    ghost use Rattle.std.specs.Prelude.{◌≡◌};

    /// Returns settings with this seed, by which a packet that isn't whole is given up after 60 seconds.
    pub fn new(seed: [u64; 2]) -> Settings
        ensures seed { result.seed ≡ seed }
        ensures timeout { result.timeout ≡ 60000000000 }
    {
        Settings {
            seed,
            timeout: DEFAULT_TIMEOUT,
        }
    }
}
