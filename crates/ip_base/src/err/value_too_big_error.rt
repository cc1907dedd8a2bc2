//! The error of a value that is too big for its field.
use thiserror::Error;

/// A value exceeds the largest that its field can hold.
#[derive(Clone, Debug, PartialEq, Eq, Hash, Drop, Error)]
#[error("value {actual} is above {max_allowed}")]
pub struct ValueTooBigError {
    /// The value.
    pub actual: u16,
    /// The largest value allowed.
    pub max_allowed: u16,
}
