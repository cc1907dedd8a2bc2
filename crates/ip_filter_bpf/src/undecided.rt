//! What a program answers where it can't decide a test.

/// What a program does with a packet that is led to a test which it can't decide.
#[derive(Clone, Copy, Debug, PartialEq, Eq)]
pub enum Undecided {
    /// It accepts the packet, so it accepts each one that the filter matches: for a program in front of an exact filter.
    Keep,
    /// It rejects the packet, so it accepts none that the filter doesn't match.
    Drop,
}
