//! Programs in memory of the caller's.
ghost use Rattle.std.specs.Prelude.{◌≡◌, ◌≤◌, ◌<◌, List, take, drop, length};
ghost use Rattle.ip_bpf.specs.declared.instruction.Instruction.{Instruction as AnInstruction};
ghost use Rattle.ip_filter_bpf.specs.Compiled.{IsCompiled};

use crate::compile::compile_filter;
use crate::undecided::Undecided;
use ip_bpf::{Assembler, Instruction};
use ip_filter::Filter;

/// Writes the program to which `compile_filter` compiles a filter to the start of `instructions`.
///
/// Returns the number of its instructions. If there are more than `instructions` has, nothing is written.
pub fn write_program(
    filter: &Filter,
    undecided: Undecided,
    instructions: &mut [Instruction],
) -> usize
    ensures count { (program : List AnInstruction) × IsCompiled undecided filter.now program × (length program ≡ result) }
    ensures compiled { result ≤ length instructions.old → IsCompiled undecided filter.now (take result instructions.new) }
    ensures after { result ≤ length instructions.old → drop result instructions.new ≡ drop result instructions.old }
    ensures unwritten { length instructions.old < result → instructions.new ≡ instructions.old }
    ensures len { length instructions.new ≡ length instructions.old }
{
    let mut code = Assembler::new();
    compile_filter(filter, undecided, &mut code);
    let program = code.instructions();
    let count = program.len();
    if count <= instructions.len() {
        instructions[..count].copy_from_slice(program);
    }
    count
}
