//! Laws of programs, each proved as the contract of a call.
ghost use Rattle.std.specs.Prelude.{List, ℕ, IsSome};
ghost use Rattle.ip_bpf.specs.Machine.{result_of};
ghost use Rattle.ip_bpf.specs.Programs.{IsProgram};
ghost use Rattle.ip_bpf.specs.declared.instruction.Instruction.{Instruction};

/// Proves that a program which the kernel accepts returns on each packet: it never gets stuck, and never runs beyond its last
/// instruction.
pub fn checked_programs_return()
    ensures { (program : List Instruction) (packet : List ℕ) → IsProgram program → IsSome (result_of program packet) }
{}
