//! Lines of the tool whose digits and lengths cover each place of the blocks that it reads at once.
use crate::tool::output_of;
use std::alloc::{AllocError, Global};
use std::test::Fail;

/// Each digit in either case.
const DIGITS: &[u8; 22] = b"0123456789abcdefABCDEF";

/// Appends random digits, others for each seed.
fn push_digits(text: &mut Vec<u8>, count: usize, seed: u32) -> Result<(), AllocError> {
    let mut state = seed;
    for _ in 0..count {
        state = state.wrapping_mul(1_664_525).wrapping_add(1_013_904_223);
        text.push(DIGITS[(state >> 24) as usize % DIGITS.len()])?;
    }
    Ok(())
}

/// Returns a line with so many bytes, of which as many as possible are one destination options header, and its answer.
fn header_and_answer(alloc: Global, len: usize, seed: u32) -> Result<(Vec<u8>, Vec<u8>), Fail> {
    let units = len / 8;
    let mut digits = format!(in alloc; "11{:02}", units.saturating_sub(1))?.into_bytes();
    push_digits(&mut digits, len.saturating_mul(2).saturating_sub(4), seed)?;
    let mut line = b"rewrite6 60 ".to_vec(alloc)?;
    line.extend_from_slice(&digits)?;
    line.push(b'\n')?;
    let mut answer = format!(in alloc; "next 17 rest {}\nwritten ", len % 8)?.into_bytes();
    for digit in digits.iter().take(units.saturating_mul(16)) {
        answer.push(digit.to_ascii_lowercase())?;
    }
    answer.extend_from_slice(b"\nok\n")?;
    Ok((line, answer))
}

#[test]
fn digits_of_all_lengths(rt: HostRuntime) -> Result<(), Fail> {
    for seed in 0..100u32 {
        for len in 8..81usize {
            let (line, answer) = header_and_answer(rt.alloc(), len, seed)?;
            let output = output_of(rt.alloc(), &line)?;
            assert_eq!(rt; output.as_slice(), answer.as_slice(), "{seed}, {len}");
        }
    }
    Ok(())
}

/// Returns a line of so many bytes with each byte but a newline in one place of its digits, and the answers.
fn bytes_and_answers(alloc: Global, len: usize, place: usize) -> Result<(Vec<u8>, Vec<u8>), Fail> {
    let accepted = format!(in alloc; "next 17 rest {len}\nok\n")?;
    let mut digits = Vec::new(alloc);
    push_digits(&mut digits, len.saturating_mul(2), 7)?;
    let mut lines = Vec::new(alloc);
    let mut answers = Vec::new(alloc);
    for byte in (0..256u32).map(|it| it as u8).filter(|it| *it != b'\n') {
        if let Some(digit) = digits.get_mut(place) {
            *digit = byte;
        }
        lines.extend_from_slice(b"exts6 17 ")?;
        lines.extend_from_slice(&digits)?;
        lines.push(b'\n')?;
        let is_digit = byte.is_ascii_hexdigit();
        let answer = if is_digit {
            accepted.as_bytes()
        } else {
            b"bad line\n"
        };
        answers.extend_from_slice(answer)?;
    }
    Ok((lines, answers))
}

#[test]
fn each_byte_in_each_place(rt: HostRuntime) -> Result<(), Fail> {
    for len in [1usize, 2, 15, 16, 17, 31, 32, 33, 48, 49] {
        for place in 0..2 * len {
            let (lines, answers) = bytes_and_answers(rt.alloc(), len, place)?;
            let output = output_of(rt.alloc(), &lines)?;
            assert!(rt; output.as_slice() == answers.as_slice(), "{len}, {place}");
        }
    }
    Ok(())
}

#[test]
fn lines_of_all_lengths(rt: HostRuntime) -> Result<(), Fail> {
    for first in 0..17usize {
        let mut lines = Vec::new(rt.alloc());
        let mut answers = Vec::new(rt.alloc());
        for len in [first].into_iter().chain(0..70usize) {
            for _ in 0..len {
                lines.push(b'x')?;
            }
            lines.push(b'\n')?;
            answers.extend_from_slice(b"bad line\n")?;
        }
        let output = output_of(rt.alloc(), &lines)?;
        assert!(rt; output.as_slice() == answers.as_slice(), "{first}");
    }
    Ok(())
}
