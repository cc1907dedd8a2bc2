//! Answers, compared with those that are expected.
use crate::case::Case;
use crate::text::{Line, Words};
use anyhow::{Error, Result};
use std::alloc::{AllocError, Global};

/// What was found in a file.
#[derive(Drop)]
pub(crate) struct Report<'a> {
    /// The file's name.
    file: &'a str,
    /// A line for each answer that differs.
    pub(crate) text: String,
    /// How many answers were compared.
    pub(crate) answers: u64,
}

/// Returns the expected answer with the bytes after the word `packet` as hexadecimal digits.
fn expanded(case: &Case<'_>, expected: &str) -> Result<String> {
    match expected.split_once("packet ") {
        Some((before, bytes)) => {
            let mut words = Words::new(bytes);
            let bytes = case.names.bytes(&mut words)?;
            words.end()?;
            let digits = hex::encode(case.alloc, &bytes)?;
            Ok(format!(in case.alloc; "{before}packet {digits}")?)
        }
        None => Ok(String::from_str(case.alloc, expected)?),
    }
}

impl<'a> Report<'a> {
    /// Returns the report of a file without answers.
    pub(crate) fn new(alloc: Global, file: &'a str) -> Report<'a> {
        Report {
            file,
            text: String::new(alloc),
            answers: 0,
        }
    }

    /// Adds an error at a line.
    pub(crate) fn fail(&mut self, line: &Line<'_>, error: &Error) -> Result<(), AllocError> {
        let (file, number) = (self.file, line.number);
        writeln!(self.text, "{file}:{number}: {error:#}")
    }

    /// Compares the answer of a step with the expected one, if there is one. Otherwise the step must have no answer.
    fn compare(&mut self, case: &Case<'_>, line: &Line<'_>, found: &str) -> Result<()> {
        let expected = match line.expected {
            Some(expected) => {
                self.answers = self.answers.saturating_add(1);
                expanded(case, expected)?
            }
            None => String::new(case.alloc),
        };
        if expected.as_str() != found || line.expected.is_some() == found.is_empty() {
            let (file, number) = (self.file, line.number);
            writeln!(
                self.text,
                "{file}:{number}: expected '{expected}', found '{found}'"
            )?;
        }
        Ok(())
    }

    /// Adds the answer of a step, or its error. A step takes all its words.
    pub(crate) fn add(
        &mut self,
        case: &Case<'_>,
        line: &Line<'_>,
        mut words: Words<'_>,
        done: Result<String>,
    ) -> Result<(), AllocError> {
        let compared = match done {
            Ok(answer) => match words.end() {
                Ok(()) => self.compare(case, line, &answer),
                Err(error) => Err(error),
            },
            Err(error) => Err(error),
        };
        match compared {
            Ok(()) => Ok(()),
            Err(error) => self.fail(line, &error),
        }
    }
}
