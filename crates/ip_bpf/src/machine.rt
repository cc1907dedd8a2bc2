//! The machine, and what each operation does with it.
ghost use Rattle.std.specs.Prelude.{◌≡◌};
ghost use Rattle.ip_bpf.specs.Machine.{loaded, header_length, computed, holds};

use crate::{Arithmetic, Comparison, Operand, Operation, Register, Width};

/// The number of words of the memory.
pub const MEMORY_WORDS: usize = 16;

/// The registers and the memory of the machine, of which the contracts of the assembler speak.
#[derive(Clone, Copy)]
pub struct Machine {
    /// The accumulator.
    pub a: u32,
    /// The index register.
    pub x: u32,
    /// The words of the memory, `None` until they are written.
    pub memory: [Option<u32>; MEMORY_WORDS],
}

/// Where an instruction leads.
#[derive(Clone, Copy)]
pub(crate) enum Next {
    /// To the end of the program, with this result.
    Return(u32),
    /// To a later instruction, after so many others.
    Skip(u32),
    /// Nowhere, since the machine has no meaning there.
    Stuck,
}

impl Machine {
    ghost use Rattle.std.specs.Prelude.{◌≡◌, None, [], slice_index_or};
    ghost use Rattle.ip_bpf.specs.Machine.{start, in_register, with_register, operand_in, next_or_end, next_or_stuck, step};
    ghost use Rattle.ip_bpf.specs.declared.instruction.Operation.TheVariants as operation;
    ghost use Rattle.ip_bpf.specs.Joined.{joined};

    /// The machine before the first instruction.
    pub(crate) fn new() -> Self
        ensures { result ≡ start }
    {
        Machine {
            a: 0,
            x: 0,
            memory: [None; MEMORY_WORDS],
        }
    }

    /// Returns what is in a register.
    fn register(&self, register: Register) -> u32
        ensures { result ≡ in_register register self.now }
    {
        match register {
            Register::A => self.a,
            Register::X => self.x,
        }
    }

    /// Puts a number into a register.
    fn set_register(&mut self, register: Register, number: u32)
        ensures { self.new ≡ with_register register number self.old }
    {
        match register {
            Register::A => self.a = number,
            Register::X => self.x = number,
        }
    }

    /// Returns the second operand of an operation.
    fn operand(&self, operand: Operand) -> u32
        ensures { result ≡ operand_in operand self.now }
    {
        match operand {
            Operand::Constant(k) => k,
            Operand::X => self.x,
        }
    }

    /// Returns a word of the memory, if it is written.
    fn word(&self, index: u32) -> Option<u32>
        ensures { result ≡ slice_index_or self.now.memory index None }
    {
        if (index as usize) < MEMORY_WORDS {
            self.memory[index as usize]
        } else {
            None
        }
    }

    /// Does what an operation does with a packet.
    pub(crate) fn step(&mut self, operation: Operation, packet: &[u8]) -> Next
        ensures { joined result self.new ≡ step operation packet.now self.old }
    {
        match operation {
            Operation::LoadConstant(register, k) => self.load(register, Some(k)),
            Operation::LoadMemory(register, k) => self.load(register, self.word(k)),
            Operation::LoadLength(register) => {
                self.load(register, Some((packet.len() % (1 << 32)) as u32))
            }
            Operation::LoadAbsolute(width, k) => {
                self.load_or_end(Register::A, number_at(packet, k, width))
            }
            Operation::LoadIndirect(width, k) => {
                self.load_or_end(
                    Register::A,
                    number_at(packet, self.x.wrapping_add(k), width),
                )
            }
            Operation::LoadHeaderLength(k) => {
                self.load_or_end(Register::X, header_length_at(packet, k))
            }
            Operation::Store(register, k) => self.store(register, k),
            Operation::Compute(arithmetic, operand) => {
                self.load_or_end(
                    Register::A,
                    compute(arithmetic, self.a, self.operand(operand)),
                )
            }
            Operation::Negate => self.load(Register::A, Some(0u32.wrapping_sub(self.a))),
            Operation::Jump(k) => Next::Skip(k),
            Operation::Branch(comparison, operand, jt, jf) => {
                let is_met = is_met(comparison, self.a, self.operand(operand));
                Next::Skip(u32::from(if is_met { jt } else { jf }))
            }
            Operation::ReturnConstant(k) => Next::Return(k),
            Operation::ReturnAccumulator => Next::Return(self.a),
            Operation::CopyToIndex => self.load(Register::X, Some(self.a)),
            Operation::CopyToAccumulator => self.load(Register::A, Some(self.x)),
        }
    }

    /// Puts a number into a register and goes on, if there is one. Else the machine is stuck.
    fn load(&mut self, register: Register, number: Option<u32>) -> Next
        ensures { joined result self.new ≡ next_or_stuck number (λ n. with_register register n self.old) }
    {
        match number {
            Some(number) => {
                self.set_register(register, number);
                Next::Skip(0)
            }
            None => Next::Stuck,
        }
    }

    /// Puts a number into a register and goes on, if there is one. Else the program ends with 0.
    fn load_or_end(&mut self, register: Register, number: Option<u32>) -> Next
        ensures { joined result self.new ≡ next_or_end number (λ n. with_register register n self.old) }
    {
        match number {
            Some(number) => {
                self.set_register(register, number);
                Next::Skip(0)
            }
            None => Next::Return(0),
        }
    }

    /// Stores a register at an index of the memory.
    fn store(&mut self, register: Register, index: u32) -> Next
        ensures { joined result self.new ≡ step (operation.Store register index) [] self.old }
    {
        if (index as usize) < MEMORY_WORDS {
            self.memory[index as usize] = Some(self.register(register));
            Next::Skip(0)
        } else {
            Next::Stuck
        }
    }
}

/// Returns the number at an offset of a packet, if all its bytes are there.
fn number_at(packet: &[u8], offset: u32, width: Width) -> Option<u32>
    ensures { result ≡ loaded packet.now offset width }
{
    let offset = offset as usize;
    match width {
        Width::Word if offset + 4 <= packet.len() => {
            let bytes = [
                packet[offset],
                packet[offset + 1],
                packet[offset + 2],
                packet[offset + 3],
            ];
            Some(u32::from_be_bytes(bytes))
        }
        Width::HalfWord if offset + 2 <= packet.len() => {
            Some(u32::from(u16::from_be_bytes([packet[offset], packet[offset + 1]])))
        }
        Width::Byte if offset < packet.len() => Some(u32::from(packet[offset])),
        _ => None,
    }
}

/// Returns the length of the IPv4 header that begins at an offset of a packet.
fn header_length_at(packet: &[u8], offset: u32) -> Option<u32>
    ensures { result ≡ header_length packet.now offset }
{
    let byte = number_at(packet, offset, Width::Byte)?;
    Some(4 * (byte % 16))
}

/// Computes the result of an operation, if there is one.
fn compute(arithmetic: Arithmetic, a: u32, b: u32) -> Option<u32>
    ensures { result ≡ computed arithmetic a b }
{
    match arithmetic {
        Arithmetic::Add => Some(a.wrapping_add(b)),
        Arithmetic::Subtract => Some(a.wrapping_sub(b)),
        Arithmetic::Multiply => Some(a.wrapping_mul(b)),
        Arithmetic::Divide => a.checked_div(b),
        Arithmetic::Or => Some(a | b),
        Arithmetic::And => Some(a & b),
        Arithmetic::ShiftLeft => Some(a.wrapping_shl(b)),
        Arithmetic::ShiftRight => Some(a.wrapping_shr(b)),
        Arithmetic::Modulo => a.checked_rem(b),
        Arithmetic::Xor => Some(a ^ b),
    }
}

/// Returns whether the condition of a jump holds.
fn is_met(comparison: Comparison, a: u32, b: u32) -> bool
    ensures { result ≡ holds comparison a b }
{
    match comparison {
        Comparison::Equal => a == b,
        Comparison::Greater => a > b,
        Comparison::GreaterOrEqual => a >= b,
        Comparison::AnyBit => a & b != 0,
    }
}
