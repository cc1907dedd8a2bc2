//! The instructions of operations.
ghost use Rattle.std.specs.Prelude.{◌≡◌, ◌<◌};
ghost use Rattle.ip_bpf.specs.Encoding as encoding;

use crate::{Arithmetic, Comparison, Instruction, Operand, Operation, Register, Width};

/// Encodes an operation.
pub(crate) fn instruction_of(operation: Operation) -> Instruction
    ensures { result ≡ encoding.instruction_of operation }
{
    match operation {
        Operation::LoadConstant(register, k) => with_constant(register_bit(register), k),
        Operation::LoadMemory(register, k) => with_constant(0x60 + register_bit(register), k),
        Operation::LoadLength(register) => with_constant(0x80 + register_bit(register), 0),
        Operation::LoadAbsolute(width, k) => with_constant(0x20 + size_bits(width), k),
        Operation::LoadIndirect(width, k) => with_constant(0x40 + size_bits(width), k),
        Operation::LoadHeaderLength(k) => with_constant(0xb1, k),
        Operation::Store(register, k) => with_constant(0x02 + register_bit(register), k),
        Operation::Compute(arithmetic, operand) => with_constant(
            0x04 + arithmetic_bits(arithmetic) + operand_bit(operand),
            constant_in(operand),
        ),
        Operation::Negate => with_constant(0x84, 0),
        Operation::Jump(k) => with_constant(0x05, k),
        Operation::Branch(comparison, operand, jt, jf) => Instruction {
            code: 0x05 + comparison_bits(comparison) + operand_bit(operand),
            jt,
            jf,
            k: constant_in(operand),
        },
        Operation::ReturnConstant(k) => with_constant(0x06, k),
        Operation::ReturnAccumulator => with_constant(0x16, 0),
        Operation::CopyToIndex => with_constant(0x07, 0),
        Operation::CopyToAccumulator => with_constant(0x87, 0),
    }
}

/// Makes an instruction that isn't a conditional jump.
fn with_constant(code: u16, k: u32) -> Instruction
    ensures { result ≡ encoding.with_constant code k }
{
    Instruction {
        code,
        jt: 0,
        jf: 0,
        k,
    }
}

/// Returns bit 0 of the code of a load or a store.
fn register_bit(register: Register) -> u16
    ensures value { result ≡ encoding.register_bit register }
    ensures bound { result < 2 }
{
    match register {
        Register::A => 0,
        Register::X => 1,
    }
}

/// Returns bits 3 and 4 of the code of a load.
fn size_bits(width: Width) -> u16
    ensures value { result ≡ encoding.size_bits width }
    ensures bound { result < 32 }
{
    match width {
        Width::Word => 0x00,
        Width::HalfWord => 0x08,
        Width::Byte => 0x10,
    }
}

/// Returns bit 3 of the code of an operation or a jump.
fn operand_bit(operand: Operand) -> u16
    ensures value { result ≡ encoding.operand_bit operand }
    ensures bound { result < 16 }
{
    match operand {
        Operand::Constant(_) => 0,
        Operand::X => 0x08,
    }
}

/// Returns the constant of an operand, 0 for the index register.
fn constant_in(operand: Operand) -> u32
    ensures { result ≡ encoding.constant_in operand }
{
    match operand {
        Operand::Constant(k) => k,
        Operand::X => 0,
    }
}

/// Returns the bits from 4 on of the code of an operation.
fn arithmetic_bits(arithmetic: Arithmetic) -> u16
    ensures value { result ≡ encoding.arithmetic_bits arithmetic }
    ensures bound { result < 256 }
{
    match arithmetic {
        Arithmetic::Add => 0x00,
        Arithmetic::Subtract => 0x10,
        Arithmetic::Multiply => 0x20,
        Arithmetic::Divide => 0x30,
        Arithmetic::Or => 0x40,
        Arithmetic::And => 0x50,
        Arithmetic::ShiftLeft => 0x60,
        Arithmetic::ShiftRight => 0x70,
        Arithmetic::Modulo => 0x90,
        Arithmetic::Xor => 0xa0,
    }
}

/// Returns the bits from 4 on of the code of a jump.
fn comparison_bits(comparison: Comparison) -> u16
    ensures value { result ≡ encoding.comparison_bits comparison }
    ensures bound { result < 256 }
{
    match comparison {
        Comparison::Equal => 0x10,
        Comparison::Greater => 0x20,
        Comparison::GreaterOrEqual => 0x30,
        Comparison::AnyBit => 0x40,
    }
}
