//! Answers the lines of standard input on standard output. The library `ipexts_tool` defines the lines.
#![tactic(auto)]

use ipexts_tool::{ToolError, run};
use std::alloc::AllocError;
use std::io;
use std::io::{BufWriter, IsTerminal};
use std::process::ExitCode;

/// The text shown before the first line if standard input is a terminal.
const LINES: &str =
    "Lines: exts6 N HEX, exts4 N HEX, rewrite6 N HEX, rewriteall6 N HEX, packet HEX, dissect HEX
('-' for no bytes); Ctrl-D ends.";

fn main(rt: HostRuntime) -> ExitCode {
    if rt.stdin().is_terminal() {
        let _ = eprintln!(rt; "{LINES}");
    }
    let result = match BufWriter::new(rt.alloc(), io::writer(&rt)) {
        Ok(mut output) => run(rt.alloc(), &mut rt.stdin(), &mut output),
        Err(_) => Err(ToolError::Memory(AllocError)),
    };
    match result {
        Ok(()) => ExitCode::SUCCESS,
        Err(error) => {
            let _ = eprintln!(rt; "ipexts: {error}");
            ExitCode::FAILURE
        }
    }
}
