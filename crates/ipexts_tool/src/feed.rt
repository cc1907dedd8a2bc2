//! The lines of an input that arrives in chunks.
ghost use Rattle.std.specs.Prelude.{◌≡◌, ◌++◌, ℕ, [], take, OnOk};
ghost use Rattle.std.specs.Io.KnownBytes.{Appends, Keeps};
ghost use Rattle.ipexts_tool.specs.Answers.{answer_of, answers_to};
ghost use Rattle.ipexts_tool.specs.OpenLine.{ended_lines, open_line, lines_at_end, kept_len};
ghost use Rattle.ipexts_tool.specs.Progress.{AnswersFirst};
ghost use Rattle.ipexts_tool.specs.Memory.{OnMemory};

use crate::ToolError;
use crate::answer::answer;
use crate::line_fields::MAX_LINE_LEN;
use crate::scratch::Scratch;
use crate::search::split_once;
use arrayvec::ArrayVec;
use std::alloc::Allocator;
use std::io::Write;

/// The number of bytes kept of a line: one more than a request may have, which shows that the line is too long.
pub const KEPT_LEN: usize = MAX_LINE_LEN + 1;

/// A line that the end of a chunk split, as far as it is kept.
pub type OpenLine = ArrayVec<u8, KEPT_LEN>;

/// Writes the answer to `line`.
fn write_answer<A: Allocator + Copy, W: Write>(
    line: &[u8],
    scratch: &mut Scratch<A>,
    output: &mut W,
) -> Result<(), ToolError>
    ensures ok { OnOk result (Appends (W.contents output.old) (W.contents output.new)
        (answer_of line.now)) }
    ensures memory { OnMemory result (Keeps (W.contents output.old) (W.contents output.new)) }
{
    answer(line, scratch)?;
    output.write_all(scratch.text.as_bytes())?;
    Ok(())
}

/// Appends `part` to `line`, up to its capacity.
#[tactic(auto, using(crate::proofs::OpenLineLemmas::line_parts))]
fn keep(line: &mut OpenLine, part: &[u8])
    ensures { line.new.items ≡ take kept_len (line.old.items ++ part.now) }
{
    let len = part.len().min(line.remaining_capacity());
    let _ = line.try_extend_from_slice(&part[..len]);
}

/// Writes the answer to the line that starts with `line` and ends with `part`, and empties `line`.
#[tactic(auto, using(crate::proofs::OpenLineLemmas::line_parts))]
fn end_line<A: Allocator + Copy, W: Write>(
    line: &mut OpenLine,
    part: &[u8],
    scratch: &mut Scratch<A>,
    output: &mut W,
) -> Result<(), ToolError>
    ensures begun { OnOk result (line.new.items ≡ []) }
    ensures ok { OnOk result (Appends (W.contents output.old) (W.contents output.new)
        (answer_of (line.old.items ++ part.now))) }
    ensures memory { OnMemory result (Keeps (W.contents output.old) (W.contents output.new)) }
{
    if line.is_empty() {
        return write_answer(part, scratch, output);
    }
    keep(line, part);
    write_answer(line.as_slice(), scratch, output)?;
    line.clear();
    Ok(())
}

/// Answers the lines that end in `chunk`, the first of which started with `line`, and keeps in `line` what follows
/// them.
#[tactic(auto, using(crate::proofs::OpenLineLemmas::line_parts))]
pub fn feed<A: Allocator + Copy, W: Write>(
    chunk: &[u8],
    line: &mut OpenLine,
    scratch: &mut Scratch<A>,
    output: &mut W,
) -> Result<(), ToolError>
    ensures kept { OnOk result
        (line.new.items ≡ take kept_len (open_line line.old.items chunk.now)) }
    ensures ok { OnOk result (Appends (W.contents output.old) (W.contents output.new)
        (answers_to (ended_lines line.old.items chunk.now))) }
    ensures memory { OnMemory result ((n : ℕ)
        × AnswersFirst (W.contents output.old) (W.contents output.new)
        (ended_lines line.old.items chunk.now) n) }
{
    let mut rest = chunk;
    while let Some((part, after)) = split_once(rest, b'\n') {
        end_line(line, part, scratch, output)?;
        rest = after;
    }
    keep(line, rest);
    Ok(())
}

/// Answers a last line without a newline.
pub fn finish<A: Allocator + Copy, W: Write>(
    line: &[u8],
    scratch: &mut Scratch<A>,
    output: &mut W,
) -> Result<(), ToolError>
    ensures ok { OnOk result (Appends (W.contents output.old) (W.contents output.new)
        (answers_to (lines_at_end line.now))) }
    ensures memory { OnMemory result (Keeps (W.contents output.old) (W.contents output.new)) }
{
    if !line.is_empty() {
        write_answer(line, scratch, output)?;
        output.flush()?;
    }
    Ok(())
}
