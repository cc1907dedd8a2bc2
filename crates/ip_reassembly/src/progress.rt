//! What `add` returns for a fragment that was accepted.

/// Whether a payload is whole.
#[derive(Clone, Copy, Debug, PartialEq, Eq, Hash)]
pub enum Progress {
    /// Bytes or the last fragment are missing.
    MoreWanted,
    /// All bytes have arrived: `payload` returns them.
    Whole,
}
