//! The codes of operations.
ghost use Rattle.std.specs.Prelude.{◌≡◌};
ghost use Rattle.ip_bpf.specs.Codes as codes;

use crate::{Arithmetic, Comparison, Instruction, Operand, Operation, Register, Width};

/// Decodes an instruction by the class of its code.
pub(crate) fn operation_of(instruction: Instruction) -> Option<Operation>
    ensures { result ≡ codes.operation_of instruction }
{
    let code = instruction.code;
    let k = instruction.k;
    match code % 8 {
        0 => load_of(code, k),
        1 => index_load_of(code, k),
        2 | 3 => store_of(code, k),
        4 => computation_of(code, k),
        5 => jump_of(instruction),
        6 => return_of(code, k),
        _ => copy_of(code),
    }
}

/// Decodes a load into the accumulator.
fn load_of(code: u16, k: u32) -> Option<Operation>
    ensures { result ≡ codes.load_of code k }
{
    match code {
        0x00 => Some(Operation::LoadConstant(Register::A, k)),
        0x60 => Some(Operation::LoadMemory(Register::A, k)),
        0x80 => Some(Operation::LoadLength(Register::A)),
        _ => packet_load_of(code, k),
    }
}

/// Decodes a load of bytes of the packet into the accumulator.
fn packet_load_of(code: u16, k: u32) -> Option<Operation>
    ensures { result ≡ codes.packet_load_of code k }
{
    let width = width_of(code / 8 % 4)?;
    match code / 32 {
        1 => Some(Operation::LoadAbsolute(width, k)),
        2 => Some(Operation::LoadIndirect(width, k)),
        _ => None,
    }
}

/// Decodes the width of a load.
fn width_of(size: u16) -> Option<Width>
    ensures { result ≡ codes.width_of size }
{
    match size {
        0 => Some(Width::Word),
        1 => Some(Width::HalfWord),
        2 => Some(Width::Byte),
        _ => None,
    }
}

/// Decodes a load into the index register.
fn index_load_of(code: u16, k: u32) -> Option<Operation>
    ensures { result ≡ codes.index_load_of code k }
{
    match code {
        0x01 => Some(Operation::LoadConstant(Register::X, k)),
        0x61 => Some(Operation::LoadMemory(Register::X, k)),
        0x81 => Some(Operation::LoadLength(Register::X)),
        0xb1 => Some(Operation::LoadHeaderLength(k)),
        _ => None,
    }
}

/// Decodes a store.
fn store_of(code: u16, k: u32) -> Option<Operation>
    ensures { result ≡ codes.store_of code k }
{
    match code {
        0x02 => Some(Operation::Store(Register::A, k)),
        0x03 => Some(Operation::Store(Register::X, k)),
        _ => None,
    }
}

/// Decodes an operation on the accumulator.
fn computation_of(code: u16, k: u32) -> Option<Operation>
    ensures { result ≡ codes.computation_of code k }
{
    if code == 0x84 {
        return Some(Operation::Negate);
    }
    let arithmetic = arithmetic_of(code / 16)?;
    Some(Operation::Compute(arithmetic, operand_of(code, k)))
}

/// Decodes the second operand, the constant or the index register.
fn operand_of(code: u16, k: u32) -> Operand
    ensures { result ≡ codes.operand_of code k }
{
    if code / 8 % 2 == 0 {
        Operand::Constant(k)
    } else {
        Operand::X
    }
}

/// Decodes which operation it is.
fn arithmetic_of(number: u16) -> Option<Arithmetic>
    ensures { result ≡ codes.arithmetic_of number }
{
    match number {
        0 => Some(Arithmetic::Add),
        1 => Some(Arithmetic::Subtract),
        2 => Some(Arithmetic::Multiply),
        3 => Some(Arithmetic::Divide),
        4 => Some(Arithmetic::Or),
        5 => Some(Arithmetic::And),
        6 => Some(Arithmetic::ShiftLeft),
        7 => Some(Arithmetic::ShiftRight),
        9 => Some(Arithmetic::Modulo),
        10 => Some(Arithmetic::Xor),
        _ => None,
    }
}

/// Decodes a jump.
fn jump_of(instruction: Instruction) -> Option<Operation>
    ensures { result ≡ codes.jump_of instruction }
{
    let code = instruction.code;
    if code == 0x05 {
        return Some(Operation::Jump(instruction.k));
    }
    let comparison = comparison_of(code / 16)?;
    let operand = operand_of(code, instruction.k);
    Some(Operation::Branch(comparison, operand, instruction.jt, instruction.jf))
}

/// Decodes the condition of a jump.
fn comparison_of(number: u16) -> Option<Comparison>
    ensures { result ≡ codes.comparison_of number }
{
    match number {
        1 => Some(Comparison::Equal),
        2 => Some(Comparison::Greater),
        3 => Some(Comparison::GreaterOrEqual),
        4 => Some(Comparison::AnyBit),
        _ => None,
    }
}

/// Decodes a return.
fn return_of(code: u16, k: u32) -> Option<Operation>
    ensures { result ≡ codes.return_of code k }
{
    match code {
        0x06 => Some(Operation::ReturnConstant(k)),
        0x16 => Some(Operation::ReturnAccumulator),
        _ => None,
    }
}

/// Decodes a copy from one register to the other.
fn copy_of(code: u16) -> Option<Operation>
    ensures { result ≡ codes.copy_of code }
{
    match code {
        0x07 => Some(Operation::CopyToIndex),
        0x87 => Some(Operation::CopyToAccumulator),
        _ => None,
    }
}
