//! What is wrong with a program.
use thiserror::Error;

/// An error in a program. An index counts instructions, from 0.
#[derive(Clone, Copy, Debug, PartialEq, Eq, Hash, Error)]
pub enum ProgramError {
    /// The program has no instruction, or more than 4,096.
    #[error("program has {instructions} instructions, not 1 to 4096")]
    Length {
        /// The number of instructions.
        instructions: usize,
    },
    /// An instruction is wrong.
    #[error("instruction {index} {error}")]
    Instruction {
        /// The index of the instruction.
        index: usize,
        /// What is wrong with it.
        error: InstructionError,
    },
    /// A word of the memory is loaded that isn't written on each path to the load.
    #[error("instruction {index} loads a word of the memory that may not be written yet")]
    UnwrittenMemory {
        /// The index of the load.
        index: usize,
    },
}

/// What is wrong with an instruction.
#[derive(Clone, Copy, Debug, PartialEq, Eq, Hash, Error)]
pub enum InstructionError {
    /// No operation has this code.
    #[error("has an unknown code")]
    UnknownCode,
    /// A load has an offset of 2^31 or more. For the kernel, these aren't offsets in the packet.
    #[error("loads at an offset of 2^31 or more")]
    OffsetBeyondPackets,
    /// A load or a store has an index of the memory above 15.
    #[error("has an index of the memory above 15")]
    NoMemory,
    /// The divisor is the constant 0.
    #[error("divides by 0")]
    DivisionByZero,
    /// A shift is by a constant of 32 or more.
    #[error("shifts by 32 bits or more")]
    LongShift,
    /// A jump leads beyond the last instruction.
    #[error("jumps beyond the last instruction")]
    LongJump,
    /// The last instruction is no return.
    #[error("is the last one and no return")]
    NoReturn,
}
