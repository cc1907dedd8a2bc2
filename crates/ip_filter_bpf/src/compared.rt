//! Tests that compare a field of the base header with a number.
ghost use Rattle.std.specs.Prelude.{◌≡◌, ℕ, ◌<◌, ◌≤◌, ◌+◌, ◌*◌, ◌-◌, ◌^◌, List, length, bit_and, false, true, if◌then◌else◌};
ghost use Rattle.std.specs.Option.{option_map_or};
ghost use Rattle.ip_bpf.specs.Assembly.{Extends, result_at};
ghost use Rattle.ip_bpf.specs.Machine.{number_at, width_len, holds};
ghost use Rattle.ip_bpf.specs.declared.machine.Machine.{Machine};
ghost use Rattle.ip_dissect.specs.Dissection.{dissected};
ghost use Rattle.ip_filter.specs.Tests.{meets, comparison_in};
ghost use Rattle.ip_filter.specs.Truth.{compares};
ghost use Rattle.ip_filter_bpf.specs.Blocks.{Returns, NeedsNothing, HasBytes};
ghost use Rattle.ip_filter_bpf.specs.Compiled.{number_of, room_of};
ghost use Rattle.ip_filter_bpf.specs.Fields.{field_value, compares_field};

use crate::blocks::put_shift;
use crate::fields::{Field, field_of};
use crate::version::Version;
use ip_bpf::{Arithmetic, Assembler, Comparison, Operand, Operation};
use ip_filter::Test;

/// Puts a test of a field of the base header, for packets of this version. Returns its label.
pub(crate) fn put_quantity(
    code: &mut Assembler,
    test: &Test,
    version: Version,
    if_met: usize,
    if_not: usize,
) -> usize
    requires room { length code.old + 2 * room_of version ≤ 4096 }
    requires kind { compares_field test.now.kind ≡ true }
    requires some_met { 0 < if_met }
    requires some_not { 0 < if_not }
    requires met_there { if_met ≤ length code.old }
    requires not_there { if_not ≤ length code.old }
    ensures some { 0 < result }
    ensures there { result ≤ length code.new }
    ensures front { Extends code.new code.old }
    ensures len { length code.new ≤ length code.old + 2 * room_of version }
    ensures words { NeedsNothing code.old if_met → NeedsNothing code.old if_not → NeedsNothing code.new result }
    ensures leads { (packet : List ℕ) (r : ℕ) → (dissected packet).version ≡ number_of version → HasBytes packet
        → Returns code.old (if meets test.now (dissected packet) then if_met else if_not) packet r
        → Returns code.new result packet r }
{
    match field_of(test.kind, version) {
        Some(field) => put_compared(code, test, field, if_met, if_not),
        None => if_not,
    }
}

/// Puts a comparison of a field with the number of a test, as that asks. Returns its label.
fn put_compared(
    code: &mut Assembler,
    test: &Test,
    field: Field,
    if_met: usize,
    if_not: usize,
) -> usize
    requires room { length code.old + 6 ≤ 4096 }
    requires near { field.offset < 64 }
    requires few { field.shift < 32 }
    requires some_met { 0 < if_met }
    requires some_not { 0 < if_not }
    requires met_there { if_met ≤ length code.old }
    requires not_there { if_not ≤ length code.old }
    ensures some { 0 < result }
    ensures there { result ≤ length code.new }
    ensures front { Extends code.new code.old }
    ensures len { length code.new ≤ length code.old + 6 }
    ensures words { NeedsNothing code.old if_met → NeedsNothing code.old if_not → NeedsNothing code.new result }
    ensures leads { (packet : List ℕ) (r : ℕ) → field.offset + width_len field.width ≤ length packet → HasBytes packet
        → field_value field packet < 2 ^ 32 - 1
        → Returns code.old (if option_map_or (λ c. compares c (field_value field packet) test.now.number)
        (comparison_in test.now.comparison) false then if_met else if_not) packet r
        → Returns code.new result packet r }
{
    let number = of_32_bits(test.number);
    match test.comparison {
        1 => put_field(code, Comparison::Equal, number, field, if_met, if_not),
        2 => put_field(code, Comparison::Equal, number, field, if_not, if_met),
        3 => put_field(
            code,
            Comparison::GreaterOrEqual,
            number,
            field,
            if_not,
            if_met,
        ),
        4 => put_field(code, Comparison::Greater, number, field, if_not, if_met),
        5 => put_field(code, Comparison::Greater, number, field, if_met, if_not),
        6 => put_field(
            code,
            Comparison::GreaterOrEqual,
            number,
            field,
            if_met,
            if_not,
        ),
        _ => if_not,
    }
}

/// Returns the number, or if it has more than 32 bits the greatest one of 32 bits.
fn of_32_bits(number: u64) -> u32
    ensures same { number < 2 ^ 32 → result ≡ number }
    ensures more { 2 ^ 32 ≤ number → result ≡ 2 ^ 32 - 1 }
{
    if number >= 1 << 32 {
        u32::MAX
    } else {
        number as u32
    }
}

/// Puts a load of a field and a comparison with a number. Returns its label.
fn put_field(
    code: &mut Assembler,
    comparison: Comparison,
    number: u32,
    field: Field,
    if_met: usize,
    if_not: usize,
) -> usize
    requires room { length code.old + 6 ≤ 4096 }
    requires near { field.offset < 64 }
    requires few { field.shift < 32 }
    requires some_met { 0 < if_met }
    requires some_not { 0 < if_not }
    requires met_there { if_met ≤ length code.old }
    requires not_there { if_not ≤ length code.old }
    ensures some { 0 < result }
    ensures there { result ≤ length code.new }
    ensures front { Extends code.new code.old }
    ensures len { length code.new ≤ length code.old + 6 }
    ensures words { NeedsNothing code.old if_met → NeedsNothing code.old if_not → NeedsNothing code.new result }
    ensures leads { (packet : List ℕ) (r : ℕ) → field.offset + width_len field.width ≤ length packet → HasBytes packet
        → Returns code.old (if holds comparison (field_value field packet) number then if_met else if_not) packet r
        → Returns code.new result packet r }
{
    code.branch(comparison, Operand::Constant(number), if_met, if_not);
    put_mask(code, field.mask);
    put_shift(code, field.shift);
    code.put(Operation::LoadAbsolute(field.width, field.offset));
    code.label()
}

/// Puts an operation that keeps only the bits of the accumulator in a mask, unless it has all bits.
fn put_mask(code: &mut Assembler, mask: u32)
    requires room { length code.old < 4096 }
    requires some { 0 < length code.old }
    ensures front { Extends code.new code.old }
    ensures len { length code.new ≤ length code.old + 1 }
    ensures words { NeedsNothing code.old (length code.old) → NeedsNothing code.new (length code.new) }
    ensures leads { (packet : List ℕ) (m : Machine) → m.a < 2 ^ 32 → result_at code.new (length code.new) packet m
        ≡ result_at code.old (length code.old) packet (record m { a = bit_and m.a mask }) }
{
    if mask < u32::MAX {
        code.put(Operation::Compute(Arithmetic::And, Operand::Constant(mask)));
    }
}
