//! Programs that the kernel accepts.
use crate::run::result_of;
use crate::{Instruction, ProgramError, check};
use std::marker::Model;

/// A program that the kernel accepts. Contracts see it as its instructions.
#[derive(Drop)]
pub struct Program<'p> {
    instructions: &'p [Instruction],
}

impl<'p> Model for Program<'p> {
    ghost use Rattle.std.specs.Prelude.{List};
    ghost use Rattle.ip_bpf.specs.Programs.{IsProgram};
    ghost use Rattle.ip_bpf.specs.declared.instruction.Instruction.{Instruction};

    ghost Value = { List Instruction };

    ghost view = { λ p. p.instructions.now };

    ghost invariant = { λ p. IsProgram p.instructions.now };
}

impl<'p> Program<'p> {
    ghost use Rattle.std.specs.Prelude.{◌≡◌, ◌↔◌, IsOk, IfOk, IfErr, Some};
    ghost use Rattle.ip_bpf.specs.Machine.{result_of};
    ghost use Rattle.ip_bpf.specs.Programs.{IsProgram, IsError};

    /// Checks that the kernel accepts these instructions, as `check` does. Returns the first error.
    pub fn new(instructions: &'p [Instruction]) -> Result<Self, ProgramError>
        ensures value { IfOk result (λ program. program ≡ instructions.now) }
        ensures ok { IsOk result ↔ IsProgram instructions.now }
        ensures error { IfErr result (λ e. IsError instructions.now e) }
    {
        check(instructions)?;
        Ok(Program { instructions })
    }

    /// Returns the instructions of this program.
    pub fn instructions(&self) -> &'p [Instruction]
        ensures { result.now ≡ self.now }
    {
        self.instructions
    }

    /// Runs this program on a packet. Returns the number with which it ends: as a filter keeps so many bytes of the packet, and
    /// drops it at 0.
    ///
    /// A load beyond the packet ends the program with 0, and so does a division by 0.
    pub fn run(&self, packet: &[u8]) -> u32
        ensures { result_of self.now packet.now ≡ Some result }
    {
        match result_of(self.instructions, packet) {
            Some(number) => number,
            None => unreachable!(),
        }
    }
}
