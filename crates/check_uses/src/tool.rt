//! Callers of the tool.
ghost use Rattle.std.specs.Prelude.{◌≡◌, ℕ, take, IfOk, IfSome};
ghost use Rattle.ipexts_tool.specs.Answers.{answers, answers_to};
ghost use Rattle.ipexts_tool.specs.Lines.{lines_of};

use ipexts_tool::{ToolError, run};
use std::alloc::Global;

/// Returns the answers to the lines of a text in memory.
pub fn answers_in_memory(alloc: Global, text: &[u8]) -> Result<Vec<u8>, ToolError>
    ensures { IfOk result (λ output. output.items ≡ answers text.now) }
{
    let mut input = text;
    let mut output = Vec::new(alloc);
    run(alloc, &mut input, &mut output)?;
    Ok(output)
}

/// Returns how many bytes of a text are left after all its lines are answered: none.
pub fn left_of_text(alloc: Global, text: &[u8]) -> Result<usize, ToolError>
    ensures { IfOk result (λ left. left ≡ 0) }
{
    let mut input = text;
    let mut output = Vec::new(alloc);
    run(alloc, &mut input, &mut output)?;
    Ok(input.len())
}

/// Returns the answers written before memory ran out: those to the first lines, up to some line.
pub fn answers_before_want_of_memory(alloc: Global, text: &[u8]) -> Option<Vec<u8>>
    ensures { IfSome result (λ output. (n : ℕ)
        × (output.items ≡ answers_to (take n (lines_of text.now)))) }
{
    let mut input = text;
    let mut output = Vec::new(alloc);
    match run(alloc, &mut input, &mut output) {
        Err(ToolError::Memory(_)) => Some(output),
        _ => None,
    }
}
