//! Instructions, as the kernel has them and decoded.
ghost use Rattle.std.specs.Prelude.{◌≡◌, Some};
ghost use Rattle.ip_bpf.specs.Codes.{operation_of};
ghost use Rattle.ip_bpf.specs.Encoding.{instruction_of};

use crate::decode::operation_of;
use crate::encode::instruction_of;

/// One instruction of a program, in the layout of the kernel's `struct sock_filter`.
#[repr(C)]
#[derive(Clone, Copy, Debug, PartialEq, Eq)]
pub struct Instruction {
    /// The code of the operation.
    pub code: u16,
    /// The number of instructions that a jump skips if its condition holds.
    pub jt: u8,
    /// The number of instructions that a jump skips if its condition doesn't hold.
    pub jf: u8,
    /// A constant, an offset in the packet, an index of the memory, or the number of instructions that `ja` skips.
    pub k: u32,
}

impl Instruction {
    /// Decodes the operation of this instruction. Returns `None` if the kernel has none of this code.
    pub fn operation(self) -> Option<Operation>
        ensures { result ≡ operation_of self }
    {
        operation_of(self)
    }
}

/// A register of 32 bits.
#[derive(Clone, Copy, Debug, PartialEq, Eq)]
pub enum Register {
    /// The accumulator.
    A,
    /// The index register.
    X,
}

/// The second operand of an operation on the accumulator.
#[derive(Clone, Copy, Debug, PartialEq, Eq)]
pub enum Operand {
    /// A constant.
    Constant(u32),
    /// The index register.
    X,
}

/// The number of bytes that a load takes from a packet.
#[derive(Clone, Copy, Debug, PartialEq, Eq)]
pub enum Width {
    /// 4 bytes.
    Word,
    /// 2 bytes.
    HalfWord,
    /// 1 byte.
    Byte,
}

/// An operation on two numbers of 32 bits.
#[derive(Clone, Copy, Debug, PartialEq, Eq)]
pub enum Arithmetic {
    /// The sum, modulo 2^32.
    Add,
    /// The difference, modulo 2^32.
    Subtract,
    /// The product, modulo 2^32.
    Multiply,
    /// The quotient.
    Divide,
    /// The bits of either.
    Or,
    /// The bits of both.
    And,
    /// The first number, shifted towards the high bits.
    ShiftLeft,
    /// The first number, shifted towards the low bits.
    ShiftRight,
    /// The remainder of a division.
    Modulo,
    /// The bits of only one of them.
    Xor,
}

/// The condition of a jump on the accumulator and an operand.
#[derive(Clone, Copy, Debug, PartialEq, Eq)]
pub enum Comparison {
    /// The accumulator is equal to the operand.
    Equal,
    /// The accumulator is greater than the operand.
    Greater,
    /// The accumulator is greater than the operand, or equal to it.
    GreaterOrEqual,
    /// The accumulator and the operand have a common bit.
    AnyBit,
}

/// What an instruction does. `P` is the packet, `M` the memory.
#[derive(Clone, Copy, Debug, PartialEq, Eq)]
pub enum Operation {
    /// Loads a constant.
    LoadConstant(Register, u32),
    /// Loads the word at an index of the memory.
    LoadMemory(Register, u32),
    /// Loads the length of the packet, modulo 2^32.
    LoadLength(Register),
    /// Loads the bytes at an offset into the accumulator.
    LoadAbsolute(Width, u32),
    /// Loads the bytes at an offset from the index register, modulo 2^32, into the accumulator.
    LoadIndirect(Width, u32),
    /// Loads four times the low 4 bits of the byte at an offset into the index register: the length of the IPv4
    /// header that begins there.
    LoadHeaderLength(u32),
    /// Stores a register at an index of the memory.
    Store(Register, u32),
    /// Computes a new accumulator of the accumulator and an operand.
    Compute(Arithmetic, Operand),
    /// Negates the accumulator, modulo 2^32.
    Negate,
    /// Skips so many instructions.
    Jump(u32),
    /// Skips the first number of instructions if the condition holds, else the second.
    Branch(Comparison, Operand, u8, u8),
    /// Ends the program with a constant.
    ReturnConstant(u32),
    /// Ends the program with the accumulator.
    ReturnAccumulator,
    /// Copies the accumulator to the index register.
    CopyToIndex,
    /// Copies the index register to the accumulator.
    CopyToAccumulator,
}

impl Operation {
    /// Encodes this operation as an instruction. Fields that it doesn't use are 0.
    pub fn instruction(self) -> Instruction
        ensures encoded { result ≡ instruction_of self }
        ensures decoded { operation_of result ≡ Some self }
    {
        instruction_of(self)
    }
}
