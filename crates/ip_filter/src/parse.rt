//! Parses the text of a filter.
ghost use Rattle.std.specs.Prelude.{◌≡◌, ◌≤◌, IfOk, IfErr};
ghost use Rattle.ip_filter.specs.Parsed.{IsParsedFilter, IsFirstError};

use crate::builder::Builder;
use crate::words::first_word;
use crate::{Filter, ParseError};

impl Filter {
    /// Parses the text of a filter.
    ///
    /// The terms are those of `Term`, and `not`, `and` and `or` join them, or `!`, `&&` and `||`; `not` binds most
    /// tightly, then `and`. Parentheses group. White space separates words where signs don't. At most 64 terms and 16
    /// levels of parentheses are accepted. The error is at the first word that can't continue a filter, and says what
    /// was expected there.
    pub fn parse(text: &[u8]) -> Result<Filter, ParseError>
        ensures ok { IfOk result (IsParsedFilter text.now) }
        ensures most { IfOk result (λ x. x.count ≤ 64) }
        ensures err { IfErr result (λ e. IsFirstError text.now e.offset e.expected) }
    {
        let mut builder = Builder::new();
        let mut rest = text;
        'words: while let Some(word) = first_word(rest) {
            match builder.read(word) {
                Ok(after) => rest = after,
                Err(error) => {
                    return Err(ParseError {
                        offset: text.len() - error.left,
                        expected: error.expected,
                    });
                }
            }
        }
        match builder.finish() {
            Ok(()) => Ok(Filter {
                count: builder.compiler.filter.used_tests().len(),
                ..builder.compiler.filter
            }),
            Err(expected) => Err(ParseError {
                offset: text.len(),
                expected,
            }),
        }
    }
}
