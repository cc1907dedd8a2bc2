//! Checks and runs programs of classic BPF, by which Linux filters packets on sockets, in `iptables` and in `tc`. Nothing is
//! copied or allocated.
//!
//! | To | Call |
//! |---|---|
//! | check a program as the kernel does, and run it | `Program::new`, then `Program::run` |
//! | only check it | `check` |
//! | decode an instruction, or encode an operation | `Instruction::operation`, `Operation::instruction` |
//! | write a program with jumps to labels at any distance | `Assembler` |
//!
//! The machine (`result_of`) is that of Linux's Documentation/networking/filter.rst and bpf(4). Since jumps lead only
//! forward, it is defined by recursion on the instructions that are left. `IsProgram` is what the kernel asks of a program;
//! such a program returns on each packet (`checked_programs_return`), so `run` can't fail.
//!
//! An `Assembler` writes a program from its end: each call puts an operation, a jump or a branch before what is there, and says
//! what the new program returns (`result_at`) and which words of the memory it loads before it stores them (`needs_at`). A
//! program that needs none is accepted (the clause `whole` of `Assembler::program`).
//!
//! Linux's loads of what isn't in the packet, at offsets from 2^31 on, are refused.
//!
//! No crate here calls it; the plain Rust package has it as the module `bpf`.
#![tactic(auto)]

mod assembler;
mod checks;
mod decode;
mod encode;
mod err;
mod instruction;
mod laws;
mod machine;
mod memory;
mod program;
mod run;

pub use assembler::Assembler;
pub use checks::{MAX_INSTRUCTIONS, check};
pub use err::{InstructionError, ProgramError};
pub use instruction::{Arithmetic, Comparison, Instruction, Operand, Operation, Register, Width};
pub use laws::checked_programs_return;
pub use machine::{MEMORY_WORDS, Machine};
pub use program::Program;
