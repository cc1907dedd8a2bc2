//! What the kernel asks of a program before it runs it.
ghost use Rattle.std.specs.Prelude.{◌≡◌, ◌↔◌, ℕ, ◌<◌, ◌≤◌, None, Some, IsOk, IfErr, OnOk, length, if◌then◌else◌};
ghost use Rattle.ip_bpf.specs.Codes.{operation_of};
ghost use Rattle.ip_bpf.specs.Programs as programs;

use crate::machine::MEMORY_WORDS;
use crate::memory::first_unwritten_load;
use crate::{Arithmetic, Instruction, InstructionError, Operand, Operation, ProgramError};

/// The greatest number of instructions of a program.
pub const MAX_INSTRUCTIONS: usize = 4096;

/// Checks that the kernel accepts a program (Linux, net/core/filter.c, `bpf_check_classic`): it has 1 to 4,096
/// instructions of known codes, jumps lead forward to another instruction, the last one is a return, no constant
/// divides by 0 or shifts by 32 or more, and each word of the memory is written before it is read.
///
/// Returns the first error. Loads at offsets from 2^31 on are refused, since the kernel doesn't read them in the packet.
pub fn check(program: &[Instruction]) -> Result<(), ProgramError>
    ensures ok { IsOk result ↔ programs.IsProgram program.now }
    ensures error { IfErr result (λ e. programs.IsError program.now e) }
{
    if program.is_empty() || program.len() > MAX_INSTRUCTIONS {
        return Err(ProgramError::Length {
            instructions: program.len(),
        });
    }
    check_instructions(program)?;
    match first_unwritten_load(program) {
        Some(index) => Err(ProgramError::UnwrittenMemory { index }),
        None => Ok(()),
    }
}

/// Checks each instruction by itself. Returns the first error.
fn check_instructions(program: &[Instruction]) -> Result<(), ProgramError>
    requires { length program.now ≤ 4096 }
    ensures right { OnOk result ((index : ℕ) → index < length program.now → programs.error_at program.now index ≡ None) }
    ensures error { IfErr result (λ e. programs.IsError program.now e) }
{
    for (index, instruction) in program.iter().enumerate() {
        if let Some(error) = instruction_error(program.len() - index - 1, *instruction) {
            return Err(ProgramError::Instruction { index, error });
        }
    }
    Ok(())
}

/// Returns what is wrong with an instruction, if so many follow it.
fn instruction_error(left: usize, instruction: Instruction) -> Option<InstructionError>
    ensures { result ≡ programs.instruction_error left (operation_of instruction) }
{
    match instruction.operation() {
        None => Some(InstructionError::UnknownCode),
        Some(operation) => match operation_error(operation) {
            None => way_error(left, operation),
            error => error,
        },
    }
}

/// Returns what is wrong with the constants of an operation.
fn operation_error(operation: Operation) -> Option<InstructionError>
    ensures { result ≡ programs.operation_error operation }
{
    match operation {
        Operation::LoadMemory(_, k) | Operation::Store(_, k) => {
            error_unless((k as usize) < MEMORY_WORDS, InstructionError::NoMemory)
        }
        Operation::LoadAbsolute(_, k) | Operation::LoadHeaderLength(k) => {
            error_unless(k < 1 << 31, InstructionError::OffsetBeyondPackets)
        }
        Operation::Compute(arithmetic, Operand::Constant(k)) => constant_error(arithmetic, k),
        _ => None,
    }
}

/// Returns what is wrong with a constant operand.
fn constant_error(arithmetic: Arithmetic, k: u32) -> Option<InstructionError>
    ensures { result ≡ programs.constant_error arithmetic k }
{
    match arithmetic {
        Arithmetic::Divide | Arithmetic::Modulo => {
            error_unless(k != 0, InstructionError::DivisionByZero)
        }
        Arithmetic::ShiftLeft | Arithmetic::ShiftRight => {
            error_unless(k < 32, InstructionError::LongShift)
        }
        _ => None,
    }
}

/// Returns what is wrong with where an operation leads, if so many instructions follow it.
fn way_error(left: usize, operation: Operation) -> Option<InstructionError>
    ensures { result ≡ programs.way_error left operation }
{
    match operation {
        Operation::Jump(k) => error_unless((k as usize) < left, InstructionError::LongJump),
        Operation::Branch(_, _, jt, jf) => error_unless(
            usize::from(jt) < left && usize::from(jf) < left,
            InstructionError::LongJump,
        ),
        Operation::ReturnConstant(_) | Operation::ReturnAccumulator => None,
        _ => error_unless(left > 0, InstructionError::NoReturn),
    }
}

/// Returns an error unless something is right.
fn error_unless(is_right: bool, error: InstructionError) -> Option<InstructionError>
    ensures { result ≡ (if is_right then None else Some error) }
{
    if is_right { None } else { Some(error) }
}
