//! Answers the test vectors of fragments in the files that the arguments name, and compares the answers with those that the
//! files expect. Prints each answer that differs, and how many there are in each file. Fails if one differs.
//!
//! A line without a space at its start names bytes (`bytes NAME BYTES`, continued by `+ BYTES`) or begins a case. The steps of
//! a case follow it, each on a line that begins with spaces: a call with its arguments, `->`, and the expected answer, in which
//! bytes follow the word `packet`. What follows `#` is a comment.
//!
//! Of the words that say bytes, a name and hexadecimal digits append bytes, `HEXxN` appends a byte N times, `N=HEX` replaces
//! the bytes from offset N on, and `..N` leaves the first N bytes.
#![tactic(auto)]

mod arrays;
mod bytes;
mod case;
mod defragmentation;
mod keys;
mod lists;
mod outcomes;
mod piece;
mod plain;
mod reassembly;
mod report;
mod rewriting;
mod text;

use anyhow::{Context, Result, bail};
use bytes::Names;
use case::Case;
use report::Report;
use std::alloc::Global;
use std::process::ExitCode;
use std::{env, fs};
use text::{Line, Words, lines_of};

/// Runs a case that begins with a word.
fn run_case(
    kind: &str,
    words: &mut Words<'_>,
    case: &Case<'_>,
    report: &mut Report<'_>,
) -> Result<()> {
    match kind {
        "reassembly" => reassembly::run(case, false, words, report),
        "abandoning" => reassembly::run(case, true, words, report),
        "plain" => reassembly::run_plain(case, words, report),
        "defragmenter" => defragmentation::run(case, words, report),
        "rewrite" => rewriting::run(case, words, report),
        "links" => lists::run_links(case, words, report),
        "table" => lists::run_table(case, words, report),
        other => bail!("there is no kind of case '{other}'"),
    }
}

/// Names bytes, or runs the case that a line begins.
fn begin<'a>(
    alloc: Global,
    names: &mut Names<'a>,
    line: &Line<'a>,
    steps: &[Line<'a>],
    report: &mut Report<'_>,
) -> Result<()> {
    let mut words = Words::new(line.text);
    match words.word()? {
        "bytes" | "+" if !steps.is_empty() => bail!("a step is in no case"),
        "bytes" => names.define(&mut words),
        "+" => names.append(&mut words),
        kind => {
            let case = Case {
                alloc,
                names,
                steps,
            };
            run_case(kind, &mut words, &case, report)
        }
    }
}

/// Runs the cases of a file.
fn run_file(alloc: Global, text: &str, report: &mut Report<'_>) -> Result<()> {
    let lines = lines_of(alloc, text)?;
    let mut names = Names::new(alloc);
    for (index, line) in lines.iter().enumerate() {
        if line.is_step && index > 0 {
            continue;
        }
        let after = lines.get(index.saturating_add(1)..).unwrap_or(&[]);
        let count = after.iter().take_while(|line| line.is_step).count();
        let steps = after.get(..count).unwrap_or(&[]);
        if let Err(error) = begin(alloc, &mut names, line, steps, report) {
            report.fail(line, &error)?;
        }
    }
    Ok(())
}

/// Runs the cases of a file, and prints what differs and how many answers were compared. Returns whether none differs.
fn print_file(rt: &HostRuntime, file: &str) -> Result<bool> {
    let alloc = rt.alloc();
    let text = fs::read_to_string(rt, file).context("a file of test vectors")?;
    let mut report = Report::new(alloc, file);
    run_file(alloc, &text, &mut report)?;
    print!(rt; "{}", report.text)?;
    println!(rt; "{file}: {} answers", report.answers)?;
    Ok(report.text.is_empty())
}

fn main(rt: HostRuntime) -> Result<ExitCode> {
    let files: Vec<String> = env::args(&rt)?.skip(1).collect(rt.alloc())?;
    let mut status = ExitCode::SUCCESS;
    for file in &files {
        if !print_file(&rt, file)? {
            status = ExitCode::FAILURE;
        }
    }
    Ok(status)
}
