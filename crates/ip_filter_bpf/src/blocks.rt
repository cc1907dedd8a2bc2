//! Blocks of instructions that compare a number of the packet and lead on to one of two labels.
ghost use Rattle.std.specs.Prelude.{◌≡◌, ℕ, ◌<◌, ◌≤◌, ◌+◌, ◌^◌, ◌/◌, ◌*◌, List, length, if◌then◌else◌, ◌==◌};
ghost use Rattle.ip_bpf.specs.Assembly.{Extends, result_at};
ghost use Rattle.ip_bpf.specs.Machine.{number_at};
ghost use Rattle.ip_bpf.specs.declared.instruction.Width.TheVariants as width;
ghost use Rattle.ip_bpf.specs.declared.machine.Machine.{Machine};
ghost use Rattle.ip_filter_bpf.specs.Blocks.{Returns, NeedsNothing, HasBytes, address_at};

use ip_bpf::{Arithmetic, Assembler, Comparison, Operand, Operation, Width};

/// Puts a comparison of the 4 bytes at an offset with a number, both without their lowest bits. Returns its label.
pub(crate) fn put_word(
    code: &mut Assembler,
    offset: u32,
    ignored: u32,
    word: u32,
    if_met: usize,
    if_not: usize,
) -> usize
    requires room { length code.old + 5 ≤ 4096 }
    requires near { offset < 64 }
    requires some_met { 0 < if_met }
    requires some_not { 0 < if_not }
    requires met_there { if_met ≤ length code.old }
    requires not_there { if_not ≤ length code.old }
    ensures some { 0 < result }
    ensures there { result ≤ length code.new }
    ensures front { Extends code.new code.old }
    ensures len { length code.new ≤ length code.old + 5 }
    ensures words { NeedsNothing code.old if_met → NeedsNothing code.old if_not → NeedsNothing code.new result }
    ensures leads { (packet : List ℕ) (r : ℕ) → offset + 4 ≤ length packet → number_at packet offset width.Word < 2 ^ 32
        → Returns code.old (if number_at packet offset width.Word / 2 ^ ignored == word / 2 ^ ignored then if_met else if_not) packet r
        → Returns code.new result packet r }
{
    if ignored >= 32 {
        return if_met;
    }
    code.branch(
        Comparison::Equal,
        Operand::Constant(word >> ignored),
        if_met,
        if_not,
    );
    put_shift(code, ignored);
    code.put(Operation::LoadAbsolute(Width::Word, offset));
    code.label()
}

/// Puts a shift of the accumulator towards the low bits, if it is by any.
pub(crate) fn put_shift(code: &mut Assembler, bits: u32)
    requires room { length code.old < 4096 }
    requires some { 0 < length code.old }
    requires few { bits < 32 }
    ensures front { Extends code.new code.old }
    ensures len { length code.new ≤ length code.old + 1 }
    ensures words { NeedsNothing code.old (length code.old) → NeedsNothing code.new (length code.new) }
    ensures leads { (packet : List ℕ) (m : Machine) → result_at code.new (length code.new) packet m
        ≡ result_at code.old (length code.old) packet (record m { a = m.a / 2 ^ bits }) }
{
    if bits > 0 {
        code.put(Operation::Compute(Arithmetic::ShiftRight, Operand::Constant(bits)));
    }
}

/// Puts a comparison of the 16 bytes at an offset with an address of 128 bits, both without their lowest bits. Returns its label.
pub(crate) fn put_address(
    code: &mut Assembler,
    offset: u32,
    ignored: u32,
    high: u64,
    low: u64,
    if_met: usize,
    if_not: usize,
) -> usize
    requires room { length code.old + 20 ≤ 4096 }
    requires near { offset < 32 }
    requires some_met { 0 < if_met }
    requires some_not { 0 < if_not }
    requires met_there { if_met ≤ length code.old }
    requires not_there { if_not ≤ length code.old }
    ensures some { 0 < result }
    ensures there { result ≤ length code.new }
    ensures front { Extends code.new code.old }
    ensures len { length code.new ≤ length code.old + 20 }
    ensures words { NeedsNothing code.old if_met → NeedsNothing code.old if_not → NeedsNothing code.new result }
    ensures leads { (packet : List ℕ) (r : ℕ) → offset + 16 ≤ length packet → HasBytes packet
        → Returns code.old (if address_at packet offset / 2 ^ ignored == (high * 2 ^ 64 + low) / 2 ^ ignored then if_met else if_not) packet r
        → Returns code.new result packet r }
{
    let last = put_word(
        code,
        offset + 12,
        ignored,
        (low % (1 << 32)) as u32,
        if_met,
        if_not,
    );
    let third = put_word(
        code,
        offset + 8,
        ignored.saturating_sub(32),
        (low / (1 << 32)) as u32,
        last,
        if_not,
    );
    let second = put_word(
        code,
        offset + 4,
        ignored.saturating_sub(64),
        (high % (1 << 32)) as u32,
        third,
        if_not,
    );
    put_word(
        code,
        offset,
        ignored.saturating_sub(96),
        (high / (1 << 32)) as u32,
        second,
        if_not,
    )
}
