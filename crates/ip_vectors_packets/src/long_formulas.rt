//! Formulas of up to 64 terms, evaluated by masks: bit `len` of each is the truth for packets with `len` bytes of payload.
//! No term holds of packets with 63 bytes, nor of a frame that is not IP.
use crate::checks::{assert_same, assert_that};
use crate::samples::ipv6_bytes;
use ip_filter::Filter;
use std::alloc::{AllocError, Global};
use std::process::Abort;
use std::test::Fail;

/// Terms, of which the one at index `len` holds of packets with `len` bytes of payload.
const TERMS: [&str; 8] = [
    "payload = 0",
    "payload = 1",
    "payload = 2",
    "payload = 3",
    "payload = 4",
    "payload = 5",
    "payload = 6",
    "payload = 7",
];

/// Returns the next of a row of numbers that look random.
fn next_number(state: &mut u64) -> u64 {
    *state = state
        .wrapping_mul(6_364_136_223_846_793_005)
        .wrapping_add(1_442_695_040_888_963_407);
    *state >> 33
}

/// A disjunction of conjunctions while its operands are read from left to right.
#[derive(Clone, Copy)]
struct Truth {
    /// The conjunctions before the last one.
    either: u64,
    /// The last conjunction so far.
    both: u64,
}

impl Truth {
    /// Returns the truth of the first operand.
    fn of(operand: u64) -> Truth {
        Truth {
            either: 0,
            both: operand,
        }
    }

    /// Joins one more operand.
    fn join(&mut self, is_and: bool, operand: u64) {
        if is_and {
            self.both &= operand;
        } else {
            self.either |= self.both;
            self.both = operand;
        }
    }

    /// Returns the truth of all operands.
    fn all(&self) -> u64 {
        self.either | self.both
    }
}

/// Appends a term, which is negated or not.
fn push_term(text: &mut String, number: u64) -> Result<u64, AllocError> {
    let index = number % 8;
    if number / 8 % 2 == 1 {
        text.push_str("not ")?;
    }
    text.push_str(TERMS[index as usize])?;
    let truth = 1 << index;
    Ok(if number / 8 % 2 == 1 { !truth } else { truth })
}

/// Appends an operator, and returns whether it is `and`.
fn push_operator(text: &mut String, number: u64) -> Result<bool, AllocError> {
    let is_and = number / 16 % 2 == 1;
    text.push_str(if is_and { " and " } else { " or " })?;
    Ok(is_and)
}

/// Appends a group of `terms` terms, which is negated or not.
fn push_group(text: &mut String, state: &mut u64, terms: u64) -> Result<u64, AllocError> {
    let is_negated = next_number(state) % 2 == 1;
    text.push_str(if is_negated { "!(" } else { "(" })?;
    let mut truth = Truth::of(push_term(text, next_number(state))?);
    for _ in 1..terms {
        let number = next_number(state);
        let is_and = push_operator(text, number)?;
        truth.join(is_and, push_term(text, number)?);
    }
    text.push_str(")")?;
    Ok(if is_negated {
        !truth.all()
    } else {
        truth.all()
    })
}

/// Checks what the filter says of packets with 0 to 63 bytes of payload, without extension headers and after destination
/// options, and of a frame that is not IP.
fn check(rt: &impl Abort, alloc: Global, text: &str, truth: u64) -> Result<(), Fail> {
    let parsed = Filter::parse(text.as_bytes());
    assert_that(rt, text, parsed.is_ok());
    let Ok(filter) = parsed else {
        return Ok(());
    };
    let plain = ipv6_bytes(alloc, 0, 17, &[7; 63])?;
    let mut options = ipv6_bytes(alloc, 0, 60, &[17, 0, 1, 4, 0, 0, 0, 0])?;
    options.extend_from_slice(&[7; 63])?;
    for len in 0..64usize {
        let wanted = (truth >> len) & 1 == 1;
        let bytes = plain.get(..40 + len).unwrap_or(&[]);
        assert_same(rt, (text, len), filter.matches(bytes), wanted);
        let bytes = options.get(..48 + len).unwrap_or(&[]);
        assert_same(rt, (text, len, "options"), filter.matches(bytes), wanted);
    }
    assert_same(
        rt,
        (text, "not IP"),
        filter.matches_other(),
        truth >> 63 == 1,
    );
    Ok(())
}

/// Appends groups of `terms` terms each.
fn push_groups(
    text: &mut String,
    state: &mut u64,
    groups: u64,
    terms: u64,
) -> Result<u64, AllocError> {
    let mut truth = Truth::of(push_group(text, state, terms)?);
    for _ in 1..groups {
        let is_and = push_operator(text, next_number(state))?;
        truth.join(is_and, push_group(text, state, terms)?);
    }
    Ok(truth.all())
}

#[test]
fn random_formulas(rt: HostRuntime) -> Result<(), Fail> {
    let mut state = 1;
    for round in 0..64u64 {
        let mut text = String::new(rt.alloc());
        let truth = push_groups(&mut text, &mut state, round / 4 + 1, round % 4 + 1)?;
        check(&rt, rt.alloc(), text.as_str(), truth)?;
    }
    Ok(())
}

/// Appends a term and a group after it, which is its right operand, and so on: 16 groups.
fn push_nested(text: &mut String, numbers: &[u64; 16]) -> Result<(), AllocError> {
    for number in numbers {
        push_term(text, *number)?;
        push_operator(text, *number)?;
        text.push_str("(")?;
    }
    push_term(text, 3)?;
    text.push_str("))))))))))))))))")
}

/// Returns the truth of such a text.
fn nested_truth(numbers: &[u64; 16]) -> u64 {
    let mut truth = 1 << 3;
    for i in 0..16 {
        let number = numbers[15 - i];
        let operand = 1 << (number % 8);
        let mut outer = Truth::of(if number / 8 % 2 == 1 {
            !operand
        } else {
            operand
        });
        outer.join(number / 16 % 2 == 1, truth);
        truth = outer.all();
    }
    truth
}

#[test]
fn nested_groups(rt: HostRuntime) -> Result<(), Fail> {
    let mut state = 7;
    for _ in 0..50 {
        let mut numbers = [0; 16];
        for number in numbers.iter_mut() {
            *number = next_number(&mut state);
        }
        let mut text = String::new(rt.alloc());
        push_nested(&mut text, &numbers)?;
        check(&rt, rt.alloc(), text.as_str(), nested_truth(&numbers))?;
    }
    Ok(())
}
