//! The words of a filter's text.
ghost use Rattle.std.specs.Prelude.{◌≡◌, ◌<◌, ◌≤◌, ◌-◌, ◌∷◌, [], length, drop, slice_index, get_or, false, IfSome, IfNone};
ghost use Rattle.ip_filter.specs.Reading.{IsFirstWord};
ghost use Rattle.ip_filter.specs.Words.{words, word_len, is_white_space, is_sign, is_double_sign, joins};

/// A word of a text.
#[derive(Clone, Copy)]
pub(crate) struct Word<'a> {
    /// Its bytes.
    pub bytes: &'a [u8],
    /// How many bytes there are from its start to the end of the text.
    pub left: usize,
    /// The bytes after it.
    pub rest: &'a [u8],
}

/// Returns the first word of a text.
#[tactic(auto, using(crate::proofs::WordLemmas::first_of, crate::proofs::WordLemmas::no_words))]
pub(crate) fn first_word(text: &[u8]) -> Option<Word<'_>>
    ensures some { IfSome result (IsFirstWord text.now) }
    ensures shorter { IfSome result (λ w. length w.rest.now < length text.now) }
    ensures none { IfNone result (words text.now ≡ []) }
{
    let from = skip_spaces(text);
    if from.is_empty() {
        return None;
    }
    let len = len_of_word(from);
    Some(Word {
        bytes: &from[..len],
        left: from.len(),
        rest: &from[len..],
    })
}

/// Returns the text without the white space that it begins with.
#[tactic(auto, using(crate::proofs::WordLemmas::skip, crate::proofs::WordLemmas::no_words))]
fn skip_spaces(text: &[u8]) -> &[u8]
    ensures words { words result.now ≡ words text.now }
    ensures shorter { length result.now ≤ length text.now }
    ensures rest { result.now ≡ drop (length text.now - length result.now) text.now }
    ensures no_space { 0 < length result.now → is_white_space (slice_index result.now 0) ≡ false }
{
    'spaces: for i in 0..text.len() {
        if !is_space(text[i]) {
            return &text[i..];
        }
    }
    &[]
}

/// Returns the length of the word that the bytes begin with.
#[tactic(auto, using(crate::proofs::WordLemmas::word_goes_on, crate::proofs::WordLemmas::word_ends, crate::proofs::WordLemmas::last_byte))]
fn len_of_word(bytes: &[u8]) -> usize
    requires { 0 < length bytes.now }
    ensures len { result ≡ word_len bytes.now }
    ensures some { 0 < result }
    ensures within { result ≤ length bytes.now }
{
    'bytes: for i in 1..bytes.len() {
        if !joins(bytes[i - 1], bytes[i]) {
            return i;
        }
    }
    bytes.len()
}

/// Returns whether the byte is white space.
fn is_space(byte: u8) -> bool
    ensures { result ≡ is_white_space byte }
{
    matches!(byte, b'\t' | b'\n' | b'\r' | b' ')
}

/// Returns whether the byte is a sign: part of an operator, or a parenthesis.
fn is_sign(byte: u8) -> bool
    ensures { result ≡ is_sign byte }
{
    matches!(byte, b'!' | b'&' | b'(' | b')' | b'<' | b'=' | b'>' | b'|')
}

/// Returns whether the two signs are one word.
fn is_double_sign(first: u8, second: u8) -> bool
    ensures { result ≡ is_double_sign first second }
{
    match first {
        b'&' | b'|' => second == first,
        b'!' | b'<' | b'=' | b'>' => second == b'=',
        _ => false,
    }
}

/// Returns whether the two bytes, of which the first isn't white space, are in one word.
fn joins(first: u8, second: u8) -> bool
    ensures { result ≡ joins first second }
{
    if is_sign(first) {
        is_double_sign(first, second)
    } else {
        !is_space(second) && !is_sign(second)
    }
}
