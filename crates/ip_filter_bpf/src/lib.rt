//! Compiles filters to programs of classic BPF, which the kernel runs on packets that begin with an IP header: those of raw sockets,
//! of tun devices and of `iptables -m bpf`. Nothing is allocated.
//!
//! | To | Call |
//! |---|---|
//! | compile a filter | `compile_filter` to an `Assembler` of `ip_bpf`, then `Assembler::program` |
//! | write its program to an array | `write_program` |
//!
//! - The kernel accepts each program, and it fits: no filter is too long.
//! - A program decides tests of addresses and of fields of the base header (`is_decided`). A packet that comes to another test is accepted with
//!   `Undecided::Keep` and rejected with `Undecided::Drop`; `verdict` says which packets pass.
//! - With `Keep` a program accepts each packet that the filter matches, and with `Drop` none that the filter doesn't match.
//!   Where it decides all tests, it accepts exactly the packets that the filter matches (`verdicts_err_on_one_side`).
//! - This holds for each packet of less than 4 GiB, also for bytes without a base header.
//!
//! `wolfaren_compile_filter` of `ipexts_c` calls it.
#![tactic(auto)]

mod blocks;
mod compared;
mod compile;
mod exactness;
mod fields;
mod start;
mod tests_of_base;
mod undecided;
mod version;
mod written;

pub use compile::compile_filter;
pub use exactness::verdicts_err_on_one_side;
pub use undecided::Undecided;
pub use written::write_program;
