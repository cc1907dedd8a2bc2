//! Tests: programs that are assembled, by the assembler's output in Linux's filter.rst, and jumps over many instructions.
use ip_bpf::{Assembler, Comparison, Instruction, Operand, Operation, Register, Width};
use std::process::Abort;

/// Puts a return, if there is room.
fn put_return(code: &mut Assembler, number: u32) {
    if code.label() < 4096 {
        code.put(Operation::ReturnConstant(number));
    }
}

/// Puts a load of the packet's length, which changes nothing that counts here, if there is room.
fn put_filler(code: &mut Assembler) {
    let here = code.label();
    if 0 < here && here < 4096 {
        code.put(Operation::LoadLength(Register::X));
    }
}

/// Puts a load of bytes at an offset and a comparison of them with a number, if there is room and the labels are there.
fn put_test(code: &mut Assembler, width: Width, number: u32, if_met: usize, if_not: usize) {
    let here = code.label();
    if here <= 4000 && 0 < if_met && if_met <= here && 0 < if_not && if_not <= here {
        code.branch(Comparison::Equal, Operand::Constant(number), if_met, if_not);
        code.put(Operation::LoadAbsolute(width, 12));
    }
}

/// Checks what the program returns on a packet.
fn assert_returns(rt: &impl Abort, code: &Assembler, packet: &[u8], wanted: u32) {
    let program = code.program().expect(rt, "the program is accepted");
    let result = program.run(packet);
    assert!(rt; result == wanted, "{result} for {wanted}");
}

/// filter.rst has the program `ldh [12]; jne #0x806, drop; ret #-1; drop: ret #0` and its instructions.
#[test]
fn arp_packets(rt: HostRuntime) {
    let mut code = Assembler::new();
    put_return(&mut code, 0);
    put_return(&mut code, u32::MAX);
    put_test(&mut code, Width::HalfWord, 0x806, 2, 1);
    let wanted = [
        Instruction {
            code: 40,
            jt: 0,
            jf: 0,
            k: 12,
        },
        Instruction {
            code: 21,
            jt: 0,
            jf: 1,
            k: 2054,
        },
        Instruction {
            code: 6,
            jt: 0,
            jf: 0,
            k: 4294967295,
        },
        Instruction {
            code: 6,
            jt: 0,
            jf: 0,
            k: 0,
        },
    ];
    assert!(rt; code.instructions() == wanted.as_slice());
}

/// Each side of a branch in turn, and then both, lead over 300 instructions.
#[test]
fn jumps_over_many_instructions(rt: HostRuntime) {
    let (one, two) = (*b"............\x01", *b"............\x02");
    let mut code = Assembler::new();
    put_return(&mut code, 7);
    put_return(&mut code, 9);
    for _ in 0..300 {
        put_filler(&mut code);
    }
    put_return(&mut code, 5);
    let here = code.label();
    put_test(&mut code, Width::Byte, 1, 2, here);
    assert!(rt; code.label() == here + 3);
    assert_returns(&rt, &code, &one, 9);
    assert_returns(&rt, &code, &two, 5);
    let here = code.label();
    put_test(&mut code, Width::Byte, 1, here, 1);
    assert_returns(&rt, &code, &one, 9);
    assert_returns(&rt, &code, &two, 7);
    let here = code.label();
    put_test(&mut code, Width::Byte, 1, 1, 2);
    assert!(rt; code.label() == here + 4);
    assert_returns(&rt, &code, &one, 7);
    assert_returns(&rt, &code, &two, 9);
    // without the byte, the load ends the program
    assert_returns(&rt, &code, b"", 0);
}
