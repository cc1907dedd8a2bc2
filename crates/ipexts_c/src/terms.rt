//! The terms of filters, as texts.
ghost use Rattle.std.specs.Prelude.{◌≡◌};
ghost use Rattle.ip_filter_terms.specs.Rows.{text_in};
ghost use Rattle.ip_filter_terms.specs.Table.{terms, term_meanings, term_examples, arguments, argument_meanings, term_notes};

use ip_filter_terms::{argument, argument_meaning, term, term_example, term_meaning, term_note};

/// Calls `term` and stores its result in `text`.
#[unsafe(no_mangle)]
pub extern "C" fn wolfaren_find_term(index: u8, text: &mut &'static [u8])
    ensures { text.new.now ≡ text_in terms index }
{
    *text = term(index);
}

/// Calls `term_meaning` and stores its result in `text`.
#[unsafe(no_mangle)]
pub extern "C" fn wolfaren_find_term_meaning(index: u8, text: &mut &'static [u8])
    ensures { text.new.now ≡ text_in term_meanings index }
{
    *text = term_meaning(index);
}

/// Calls `term_example` and stores its result in `text`.
#[unsafe(no_mangle)]
pub extern "C" fn wolfaren_find_term_example(index: u8, text: &mut &'static [u8])
    ensures { text.new.now ≡ text_in term_examples index }
{
    *text = term_example(index);
}

/// Calls `argument` and stores its result in `text`.
#[unsafe(no_mangle)]
pub extern "C" fn wolfaren_find_argument(index: u8, text: &mut &'static [u8])
    ensures { text.new.now ≡ text_in arguments index }
{
    *text = argument(index);
}

/// Calls `argument_meaning` and stores its result in `text`.
#[unsafe(no_mangle)]
pub extern "C" fn wolfaren_find_argument_meaning(index: u8, text: &mut &'static [u8])
    ensures { text.new.now ≡ text_in argument_meanings index }
{
    *text = argument_meaning(index);
}

/// Calls `term_note` and stores its result in `text`.
#[unsafe(no_mangle)]
pub extern "C" fn wolfaren_find_term_note(index: u8, text: &mut &'static [u8])
    ensures { text.new.now ≡ text_in term_notes index }
{
    *text = term_note(index);
}
