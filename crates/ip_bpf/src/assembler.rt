//! Programs that are written from their end.
ghost use Rattle.std.specs.Prelude.{◌≡◌, ◌≤◌};

use crate::checks::MAX_INSTRUCTIONS;
use crate::{Comparison, Instruction, Operand, Operation, Program, ProgramError};
use std::marker::Model;

/// A program that is written from its end: each call puts something before what is there. Contracts see it as its instructions.
///
/// A *label* is a place in the program, as the number of instructions from there to the end. It stays the same when more is
/// put before. Jumps lead to labels, at any distance.
#[derive(Drop)]
pub struct Assembler {
    instructions: [Instruction; MAX_INSTRUCTIONS],
    start: usize,
}

impl Model for Assembler {
    ghost use Rattle.std.specs.Prelude.{List, ◌≤◌, drop};
    ghost use Rattle.ip_bpf.specs.declared.instruction.Instruction.{Instruction};
    ghost use Rattle.ip_bpf.specs.Assembly.{AreRight};

    ghost Value = { List Instruction };

    ghost view = { λ a. drop a.start a.instructions };

    ghost invariant = { λ a. (a.start ≤ 4096) × AreRight (drop a.start a.instructions) };
}

impl Assembler {
    ghost use Rattle.std.specs.Prelude.{◌≡◌, ◌≤◌, ◌<◌, ◌+◌, ◌-◌, ◌↔◌, ◌||◌, ℕ, false, [], ◌∷◌, List, length, None, Some, IsOk, IfOk, IfErr, if◌then◌else◌};
    ghost use Rattle.ip_bpf.specs.Assembly.{AreRight, Extends, result_at, needs_at};
    ghost use Rattle.ip_bpf.specs.Encoding.{instruction_of};
    ghost use Rattle.ip_bpf.specs.Machine.{holds, operand_in};
    ghost use Rattle.ip_bpf.specs.Programs.{IsProgram, IsError, instruction_error};
    ghost use Rattle.ip_bpf.specs.declared.machine.Machine.{Machine};
    ghost use Rattle.ip_bpf.specs.declared.instruction.Operation.TheVariants as operation;

    /// Makes a program without instructions.
    pub fn new() -> Self
        ensures { result ≡ [] }
    {
        let nothing = Instruction {
            code: 0,
            jt: 0,
            jf: 0,
            k: 0,
        };
        Assembler {
            instructions: [nothing; MAX_INSTRUCTIONS],
            start: MAX_INSTRUCTIONS,
        }
    }

    /// Removes all instructions.
    pub fn clear(&mut self)
        ensures { self.new ≡ [] }
    {
        self.start = MAX_INSTRUCTIONS;
    }

    /// Returns the label of the first instruction: how many there are.
    pub fn label(&self) -> usize
        ensures value { result ≡ length self.now }
        ensures few { result ≤ 4096 }
    {
        self.instructions().len()
    }

    /// Returns the instructions, each of which is right as the end of a program.
    pub fn instructions(&self) -> &[Instruction]
        ensures value { result.now ≡ self.now }
        ensures few { length result.now ≤ 4096 }
        ensures right { AreRight result.now }
    {
        &self.instructions[self.start..]
    }

    /// Returns the program, if the kernel accepts it, and otherwise the first error. It accepts each one that has an instruction
    /// and loads no word of the memory before it is stored.
    pub fn program(&self) -> Result<Program<'_>, ProgramError>
        ensures value { IfOk result (λ program. program ≡ self.now) }
        ensures ok { IsOk result ↔ IsProgram self.now }
        ensures error { IfErr result (λ e. IsError self.now e) }
        ensures whole { 0 < length self.now → ((k : ℕ) → needs_at k self.now (length self.now) ≡ false) → IsOk result }
    {
        Program::new(self.instructions())
    }

    /// Puts an operation before the program.
    pub fn put(&mut self, operation: Operation)
        requires room { length self.old < 4096 }
        requires right { instruction_error (length self.old) (Some operation) ≡ None }
        ensures { self.new ≡ instruction_of operation ∷ self.old }
    {
        self.start -= 1;
        self.instructions[self.start] = operation.instruction();
    }

    /// Puts a jump to a label before the program.
    pub fn jump(&mut self, label: usize)
        requires room { length self.old < 4096 }
        requires some { 0 < label }
        requires there { label ≤ length self.old }
        ensures { self.new ≡ instruction_of (operation.Jump (length self.old - label)) ∷ self.old }
    {
        let distance = self.label() - label;
        self.put(Operation::Jump(distance as u32));
    }

    /// Puts a conditional jump before the program: to one label if the condition holds, otherwise to the other. Where a label is
    /// too far for it, a `ja` follows that leads there.
    pub fn branch(&mut self, comparison: Comparison, operand: Operand, if_met: usize, if_not: usize)
        requires room { length self.old + 3 ≤ 4096 }
        requires some_met { 0 < if_met }
        requires some_not { 0 < if_not }
        requires met_there { if_met ≤ length self.old }
        requires not_there { if_not ≤ length self.old }
        ensures front { Extends self.new self.old }
        ensures longer { length self.old < length self.new }
        ensures len { length self.new ≤ length self.old + 3 }
        ensures near { length self.old - if_met ≤ 254 → length self.old - if_not ≤ 254 → length self.new ≡ length self.old + 1 }
        ensures leads { (packet : List ℕ) (m : Machine) → result_at self.new (length self.new) packet m
            ≡ result_at self.old (if holds comparison m.a (operand_in operand m) then if_met else if_not) packet m }
        ensures words { (k : ℕ) → needs_at k self.new (length self.new)
            ≡ (needs_at k self.old if_met || needs_at k self.old if_not) }
    {
        let if_not = self.reach(if_not, 254);
        let if_met = self.reach(if_met, 255);
        let here = self.label();
        self.put(Operation::Branch(
            comparison,
            operand,
            (here - if_met) as u8,
            (here - if_not) as u8,
        ));
    }

    /// Returns a label at most so many instructions away, from which the program does what it does from the given one. Puts a jump
    /// before the program if that is farther away.
    fn reach(&mut self, label: usize, most: usize) -> usize
        requires room { length self.old < 4096 }
        requires some { 0 < label }
        requires there { label ≤ length self.old }
        ensures some { 0 < result }
        ensures there { result ≤ length self.new }
        ensures near { length self.new - result ≤ most }
        ensures front { Extends self.new self.old }
        ensures len { length self.new ≤ length self.old + 1 }
        ensures kept { length self.old - label ≤ most → length self.new ≡ length self.old }
        ensures leads { (packet : List ℕ) (m : Machine) → result_at self.new result packet m ≡ result_at self.old label packet m }
        ensures words { (k : ℕ) → needs_at k self.new result ≡ needs_at k self.old label }
    {
        if self.label() - label <= most {
            return label;
        }
        self.jump(label);
        self.label()
    }
}
