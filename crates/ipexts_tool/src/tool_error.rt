//! The error of a run of the tool.
ghost use Rattle.std.specs.Prelude.{◌≡◌, Some};
ghost use Rattle.ipexts_tool.specs.declared.tool_error.ToolError.TheVariants.{Memory, Io};

use std::alloc::AllocError;
use std::error::Error;
use std::{fmt, io};

/// Why a run ended before the end of its input.
#[derive(Debug, Drop)]
pub enum ToolError {
    /// A read, a write or a flush failed, or the input did not end within 2^64 - 1 reads.
    Io(io::Error),
    /// There was no memory for an answer. The answers to all lines before it were written.
    Memory(AllocError),
}

impl fmt::Display for ToolError {
    ghost use Rattle.ipexts_tool.specs.Message.{message_of};

    ghost output = { λ error. Some (message_of error) };

    fn fmt<W: fmt::Write>(&self, f: &mut fmt::Formatter<W>) -> fmt::Result {
        f.write_str(match self {
            ToolError::Io(_) => "input or output failed",
            ToolError::Memory(_) => "out of memory",
        })
    }
}

impl Error for ToolError {}

impl From<AllocError> for ToolError {
    ghost from_gives = { λ memory error. error ≡ Memory memory };

    fn from(error: AllocError) -> ToolError {
        ToolError::Memory(error)
    }
}

impl From<io::Error> for ToolError {
    ghost from_gives = { λ failure error. error ≡ Io failure };

    fn from(error: io::Error) -> ToolError {
        ToolError::Io(error)
    }
}
