//! Callers of filters.
ghost use Rattle.std.specs.Prelude.{◌≡◌, ◌≤◌, ◌++◌, List, drop, Some, None, IfSome, IfNone};
ghost use Rattle.ip_dissect.specs.Dissection.{dissected};
ghost use Rattle.ip_filter.specs.Words.{Word, words};
ghost use Rattle.ip_filter.specs.Grammar.{Disjunction, IsFilter, filter_words, formula_of, terms_in};
ghost use Rattle.ip_filter.specs.Formula.{truth};
ghost use Rattle.ip_filter.specs.Truth.{holds};
ghost use Rattle.ip_filter.specs.Frames.{holds_in};

use ip_filter::{Expected, Filter, Frame, ParseError};
use ip_spans::parse_filter;

/// Returns whether the packet meets the filter that the text writes, and `None` if the text isn't a filter.
pub fn meets_text(text: &[u8], filter: &mut Filter, packet: &[u8]) -> Option<bool>
    ensures some { IfSome result (λ meets. (d : Disjunction) × IsFilter d
        × (filter_words d ≡ words text.now)
        × (meets ≡ truth (formula_of d) (λ t. holds t (dissected packet.now)))) }
    ensures none { IfNone result ((d : Disjunction) → IsFilter d
        → filter_words d ≡ words text.now → ⊥) }
{
    match parse_filter(text, filter) {
        Ok(()) => Some(filter.matches(packet)),
        Err(_) => None,
    }
}

/// Returns whether the packet meets the filter that the text writes, whichever way the text is read as one: there is only
/// one.
pub fn meets_each_reading(text: &[u8], filter: &mut Filter, packet: &[u8]) -> Option<bool>
    ensures { IfSome result (λ meets. (d : Disjunction) → IsFilter d → filter_words d ≡ words text.now
        → meets ≡ truth (formula_of d) (λ t. holds t (dissected packet.now))) }
{
    match parse_filter(text, filter) {
        Ok(()) => Some(filter.matches(packet)),
        Err(_) => None,
    }
}

/// Returns whether a frame and its packet meet the filter that the text writes.
pub fn meets_text_in_frame(text: &[u8], frame: &Frame, packet: &[u8]) -> Option<bool>
    ensures { IfSome result (λ meets. (d : Disjunction) × IsFilter d × (filter_words d ≡ words text.now)
        × (meets ≡ truth (formula_of d) (holds_in frame.now (Some packet.now)))) }
{
    match Filter::parse(text) {
        Ok(filter) => Some(filter.matches_frame(frame, packet)),
        Err(_) => None,
    }
}

/// Returns whether a frame without a packet meets the filter that the text writes.
pub fn meets_text_without_packet(text: &[u8], frame: &Frame) -> Option<bool>
    ensures { IfSome result (λ meets. (d : Disjunction) × IsFilter d × (filter_words d ≡ words text.now)
        × (meets ≡ truth (formula_of d) (holds_in frame.now None))) }
{
    match Filter::parse(text) {
        Ok(filter) => Some(filter.matches_other_frame(frame)),
        Err(_) => None,
    }
}

/// Returns the kind of the last test of the filter that the text writes. The array of tests has one at that index.
pub fn last_kind(text: &[u8], filter: &mut Filter) -> Option<u8> {
    match parse_filter(text, filter) {
        Ok(()) if filter.count > 0 => Some(filter.tests[filter.count - 1].kind),
        _ => None,
    }
}

/// Returns how many tests the filter has that the text writes: at most one for each term.
pub fn count_of_tests(text: &[u8]) -> Option<usize>
    ensures { IfSome result (λ count. (d : Disjunction) × IsFilter d
        × (filter_words d ≡ words text.now) × (count ≤ terms_in d)) }
{
    match Filter::parse(text) {
        Ok(filter) => Some(filter.count),
        Err(_) => None,
    }
}

/// Returns the offset at which the text goes on after a filter, if an operator or the end is expected there.
pub fn end_of_filter(text: &[u8]) -> Option<usize>
    ensures { IfSome result (λ offset. (d : Disjunction) × IsFilter d
        × (filter_words d ++ words (drop offset text.now) ≡ words text.now)) }
{
    match Filter::parse(text) {
        Err(
            ParseError {
                offset,
                expected: Expected::OperatorOrEnd,
            },
        ) => Some(offset),
        _ => None,
    }
}

/// Returns the offset of the first error in the text of a filter. Some filter begins with the words before it.
pub fn offset_of_error(text: &[u8]) -> Option<usize>
    ensures { IfSome result (λ offset. (d : Disjunction) × (front : List Word) × (rest : List Word) × IsFilter d
        × (filter_words d ≡ front ++ rest) × (front ++ words (drop offset text.now) ≡ words text.now)) }
{
    match Filter::parse(text) {
        Ok(_) => None,
        Err(error) => Some(error.offset),
    }
}
