//! Tests: programs from Linux's documentation and by hand, with what filter.rst says that they do.
use ip_bpf::{Instruction, InstructionError, Program, ProgramError, check};
use std::process::Abort;

/// Makes an instruction of its four fields, as filter.rst prints them.
fn instruction(code: u16, jt: u8, jf: u8, k: u32) -> Instruction {
    Instruction { code, jt, jf, k }
}

/// Checks what a program returns on a packet.
fn assert_returns(rt: &impl Abort, program: &[Instruction], packet: &[u8], wanted: u32) {
    let program = Program::new(program).expect(rt, "the program is accepted");
    let result = program.run(packet);
    assert!(rt; result == wanted, "{result} for {wanted}");
}

/// Checks the error of a program.
fn assert_error(rt: &impl Abort, program: &[Instruction], wanted: ProgramError) {
    let is_it = match check(program) {
        Ok(()) => false,
        Err(error) => error == wanted,
    };
    assert!(rt; is_it, "no {wanted}");
}

/// The program of `tcpdump -i em1 port 22 -dd` in filter.rst.
fn port_22() -> [Instruction; 24] {
    [
        instruction(0x28, 0, 0, 0x0000000c),
        instruction(0x15, 0, 8, 0x000086dd),
        instruction(0x30, 0, 0, 0x00000014),
        instruction(0x15, 2, 0, 0x00000084),
        instruction(0x15, 1, 0, 0x00000006),
        instruction(0x15, 0, 17, 0x00000011),
        instruction(0x28, 0, 0, 0x00000036),
        instruction(0x15, 14, 0, 0x00000016),
        instruction(0x28, 0, 0, 0x00000038),
        instruction(0x15, 12, 13, 0x00000016),
        instruction(0x15, 0, 12, 0x00000800),
        instruction(0x30, 0, 0, 0x00000017),
        instruction(0x15, 2, 0, 0x00000084),
        instruction(0x15, 1, 0, 0x00000006),
        instruction(0x15, 0, 8, 0x00000011),
        instruction(0x28, 0, 0, 0x00000014),
        instruction(0x45, 6, 0, 0x00001fff),
        instruction(0xb1, 0, 0, 0x0000000e),
        instruction(0x48, 0, 0, 0x0000000e),
        instruction(0x15, 2, 0, 0x00000016),
        instruction(0x48, 0, 0, 0x00000010),
        instruction(0x15, 0, 1, 0x00000016),
        instruction(0x06, 0, 0, 0x0000ffff),
        instruction(0x06, 0, 0, 0x00000000),
    ]
}

#[test]
fn port_22_behind_ethernet(rt: HostRuntime) {
    let ssh =
        *b"\x02\0\0\0\0\x01\x02\0\0\0\0\x02\x08\0\x46\0\0\x2c\0\0\0\0\x40\x06\0\0\x0a\0\0\x01\x0a\0\0\x02\x01\x01\x01\0\xc0\0\0\x16";
    let later =
        *b"\x02\0\0\0\0\x01\x02\0\0\0\0\x02\x08\0\x46\0\0\x2c\0\0\0\x01\x40\x06\0\0\x0a\0\0\x01\x0a\0\0\x02\x01\x01\x01\0\xc0\0\0\x16";
    let arp =
        *b"\x02\0\0\0\0\x01\x02\0\0\0\0\x02\x08\x06\0\x01\x08\0\x06\x04\0\x01\x02\0\0\0\0\x01\x0a\0\0\x01\0\0\0\0\0\0\x0a\0\0\x02";
    assert_returns(&rt, &port_22(), &ssh, 0xffff);
    assert_returns(&rt, &port_22(), &later, 0);
    assert_returns(&rt, &port_22(), &arp, 0);
    // without the last byte of the port, the load ends the program
    assert_returns(&rt, &port_22(), &ssh[..41], 0);
}

#[test]
fn registers_and_memory(rt: HostRuntime) {
    // (7 - 9) of 32 bits, shifted to the low bits by 31
    let shifted = [
        instruction(0x00, 0, 0, 7),
        instruction(0x01, 0, 0, 9),
        instruction(0x1c, 0, 0, 0),
        instruction(0x74, 0, 0, 31),
        instruction(0x16, 0, 0, 0),
    ];
    assert_returns(&rt, &shifted, b"", 1);
    // the length and a byte from an offset in X, by way of M[15]
    let stored = [
        instruction(0x81, 0, 0, 0),
        instruction(0x03, 0, 0, 15),
        instruction(0x01, 0, 0, 1),
        instruction(0x50, 0, 0, 1),
        instruction(0x61, 0, 0, 15),
        instruction(0x0c, 0, 0, 0),
        instruction(0x16, 0, 0, 0),
    ];
    assert_returns(&rt, &stored, b"\x01\x02\x28", 43);
    assert_returns(&rt, &stored, b"\x01\x02", 0);
    // a division by X, which is 0
    let divided = [
        instruction(0x00, 0, 0, 7),
        instruction(0x3c, 0, 0, 0),
        instruction(0x06, 0, 0, 9),
    ];
    assert_returns(&rt, &divided, b"", 0);
}

#[test]
fn programs_that_are_refused(rt: HostRuntime) {
    let end = instruction(0x06, 0, 0, 0);
    let wrong = |error| ProgramError::Instruction { index: 0, error };
    assert_error(&rt, &[], ProgramError::Length { instructions: 0 });
    assert_error(
        &rt,
        &[instruction(0x0e, 0, 0, 0), end],
        wrong(InstructionError::UnknownCode),
    );
    assert_error(
        &rt,
        &[instruction(0x20, 0, 0, 0xffff_f000), end],
        wrong(InstructionError::OffsetBeyondPackets),
    );
    assert_error(
        &rt,
        &[instruction(0x02, 0, 0, 16), end],
        wrong(InstructionError::NoMemory),
    );
    assert_error(
        &rt,
        &[instruction(0x94, 0, 0, 0), end],
        wrong(InstructionError::DivisionByZero),
    );
    assert_error(
        &rt,
        &[instruction(0x64, 0, 0, 32), end],
        wrong(InstructionError::LongShift),
    );
    assert_error(
        &rt,
        &[instruction(0x15, 0, 1, 0), end],
        wrong(InstructionError::LongJump),
    );
    assert_error(
        &rt,
        &[instruction(0x87, 0, 0, 0)],
        wrong(InstructionError::NoReturn),
    );
}

#[test]
fn memory_that_is_not_written(rt: HostRuntime) {
    // the store is on one way of two
    let program = [
        instruction(0x15, 0, 1, 0),
        instruction(0x02, 0, 0, 3),
        instruction(0x60, 0, 0, 3),
        instruction(0x16, 0, 0, 0),
    ];
    assert_error(&rt, &program, ProgramError::UnwrittenMemory { index: 2 });
    assert_returns(&rt, &[program[1], program[2], program[3]], b"", 0);
}
