//! The lines of files of test vectors, and the words of a line.
use anyhow::{Context, Result, bail};
use std::alloc::{AllocError, Global};
use std::str::{FromStr, SplitWhitespace};

/// A line of a file, without its comment.
#[derive(Clone, Copy)]
pub(crate) struct Line<'a> {
    /// The number of the line in its file, from 1 on.
    pub(crate) number: usize,
    /// Whether the line begins with a space, as the steps of a case do.
    pub(crate) is_step: bool,
    /// What is done.
    pub(crate) text: &'a str,
    /// The expected answer, which follows `->`.
    pub(crate) expected: Option<&'a str>,
}

/// Returns a line without its comment, or `None` if nothing is left of it.
fn line_of(number: usize, text: &str) -> Option<Line<'_>> {
    let line = match text.split_once('#') {
        Some((before, _)) => before,
        None => text,
    };
    if line.trim().is_empty() {
        return None;
    }
    let (step, expected) = match line.split_once("->") {
        Some((step, answer)) => (step, Some(answer.trim())),
        None => (line, None),
    };
    Some(Line {
        number,
        is_step: line.starts_with(' '),
        text: step.trim(),
        expected,
    })
}

/// Returns the lines of a file that have more than a comment.
pub(crate) fn lines_of(alloc: Global, text: &str) -> Result<Vec<Line<'_>>, AllocError> {
    let mut lines = Vec::new(alloc);
    for (index, line) in text.lines().enumerate() {
        if let Some(line) = line_of(index.saturating_add(1), line) {
            lines.push(line)?;
        }
    }
    Ok(lines)
}

/// The words of a line, one after another.
#[derive(Drop)]
pub(crate) struct Words<'a> {
    words: SplitWhitespace<'a>,
}

impl<'a> Words<'a> {
    /// Returns the words of a text.
    pub(crate) fn new(text: &'a str) -> Words<'a> {
        Words {
            words: text.split_whitespace(),
        }
    }

    /// Returns the next word, if there is one.
    pub(crate) fn next(&mut self) -> Option<&'a str> {
        self.words.next()
    }

    /// Returns the next word.
    pub(crate) fn word(&mut self) -> Result<&'a str> {
        self.next().context("a word is missing")
    }

    /// Returns the next word as a decimal number.
    pub(crate) fn number<N: FromStr>(&mut self) -> Result<N>
    where
        N::Err: Drop,
    {
        let number = self.word()?.parse::<N>();
        number.ok().context("a number is expected")
    }

    /// Returns whether the next word is `yes`, and not `no`.
    pub(crate) fn yes(&mut self) -> Result<bool> {
        match self.word()? {
            "yes" => Ok(true),
            "no" => Ok(false),
            word => bail!("'{word}' is neither 'yes' nor 'no'"),
        }
    }

    /// Checks that no word is left.
    pub(crate) fn end(&mut self) -> Result<()> {
        match self.next() {
            Some(word) => bail!("nothing is expected in place of '{word}'"),
            None => Ok(()),
        }
    }
}

/// Returns whether something holds, in a word.
pub(crate) fn yes(holds: bool) -> &'static str {
    if holds { "yes" } else { "no" }
}
