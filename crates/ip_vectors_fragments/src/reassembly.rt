//! Payloads from their fragments.
use crate::case::Case;
use crate::piece::{Piece, add, is_own};
use crate::plain::{every_order, random_lists, shuffles};
use crate::report::Report;
use crate::text::{Words, yes};
use anyhow::{Result, bail, ensure};
use ip_reassembly::Reassembly;
use std::alloc::{AllocError, Global};

/// Returns a reassembly that abandons its packet by itself after a conflict, or doesn't.
fn reassembly_in(buffer: &mut [u8], abandons: bool) -> Reassembly<'_> {
    if abandons {
        Reassembly::abandoning(buffer)
    } else {
        Reassembly::new(buffer)
    }
}

/// Runs a case: `reassembly ROOM`, or `abandoning ROOM`, with a buffer of so many bytes.
pub(crate) fn run(
    case: &Case<'_>,
    abandons: bool,
    words: &mut Words<'_>,
    report: &mut Report<'_>,
) -> Result<()> {
    let room = words.number()?;
    words.end()?;
    let mut buffer = vec![in case.alloc; 0xa5u8; room]?;
    let mut reassembly = reassembly_in(buffer.as_mut_slice(), abandons);
    for line in case.steps {
        let mut words = Words::new(line.text);
        let answer = step(case.alloc, &mut reassembly, &mut words);
        report.add(case, line, words, answer)?;
    }
    Ok(())
}

/// Does a step. Returns its answer.
fn step(alloc: Global, reassembly: &mut Reassembly<'_>, words: &mut Words<'_>) -> Result<String> {
    let answer = match words.word()? {
        "add" => add(reassembly, Piece::parse(words)?)?,
        "payload" => return Ok(payload(alloc, reassembly)?),
        "is-abandoned" => yes(reassembly.is_abandoned()),
        "abandon" => {
            reassembly.abandon();
            ""
        }
        "clear" => {
            reassembly.clear();
            ""
        }
        other => bail!("there is no step '{other}'"),
    };
    Ok(String::from_str(alloc, answer)?)
}

/// Returns the length of the payload, if it is whole, and whose bytes it has.
fn payload(alloc: Global, reassembly: &Reassembly<'_>) -> Result<String, AllocError> {
    match reassembly.payload() {
        Some(payload) if is_own(payload) => format!(in alloc; "{} bytes", payload.len()),
        Some(payload) => format!(in alloc; "{} other bytes", payload.len()),
        None => String::from_str(alloc, "none"),
    }
}

/// Runs a case `plain`: comparisons with a plain program.
pub(crate) fn run_plain(
    case: &Case<'_>,
    words: &mut Words<'_>,
    report: &mut Report<'_>,
) -> Result<()> {
    words.end()?;
    for line in case.steps {
        let mut words = Words::new(line.text);
        let answer = plain_step(case.alloc, &mut words);
        report.add(case, line, words, answer)?;
    }
    Ok(())
}

/// Makes a comparison with the plain program. Returns an error where they differ.
fn plain_step(alloc: Global, words: &mut Words<'_>) -> Result<String> {
    match words.word()? {
        "every-order" => every_order()?,
        "random-lists" => {
            let whole = random_lists(words.number()?, words.number()?)?;
            ensure!(whole > 200, "only {whole} lists make a payload whole");
        }
        "shuffles" => shuffles(words.number()?, words.number()?)?,
        other => bail!("there is no comparison '{other}'"),
    }
    Ok(String::from_str(alloc, "alike")?)
}
