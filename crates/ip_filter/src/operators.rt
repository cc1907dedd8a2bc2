//! The words that join operands.
ghost use Rattle.std.specs.Prelude.{◌≡◌};
ghost use Rattle.ip_filter.specs.Operators.{is_not, is_and, is_or};

/// Returns whether the word is `not`.
pub(crate) fn is_not(word: &[u8]) -> bool
    ensures { result ≡ is_not word.now }
{
    word == b"not".as_slice() || word == b"!".as_slice()
}

/// Returns whether the word is `and`.
pub(crate) fn is_and(word: &[u8]) -> bool
    ensures { result ≡ is_and word.now }
{
    word == b"and".as_slice() || word == b"&&".as_slice()
}

/// Returns whether the word is `or`.
pub(crate) fn is_or(word: &[u8]) -> bool
    ensures { result ≡ is_or word.now }
{
    word == b"or".as_slice() || word == b"||".as_slice()
}
