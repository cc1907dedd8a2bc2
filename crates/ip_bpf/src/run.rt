//! Runs programs.
ghost use Rattle.std.specs.Prelude.{◌≡◌};
ghost use Rattle.ip_bpf.specs.Machine as meaning;

use crate::Instruction;
use crate::machine::{Machine, Next};

/// Runs a program on a packet. Returns `None` if the program gets stuck.
pub(crate) fn result_of(program: &[Instruction], packet: &[u8]) -> Option<u32>
    ensures { result ≡ meaning.result_of program.now packet.now }
{
    let mut machine = Machine::new();
    let mut rest = program;
    'steps: while let Some((instruction, after)) = rest.split_first() {
        let operation = instruction.operation()?;
        let skipped = match machine.step(operation, packet) {
            Next::Return(number) => return Some(number),
            Next::Skip(skipped) => skipped as usize,
            Next::Stuck => return None,
        };
        if skipped >= after.len() {
            return None;
        }
        rest = &after[skipped..];
    }
    None
}
