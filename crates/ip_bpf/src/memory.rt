//! Words of the memory that are loaded before they are stored.
ghost use Rattle.std.specs.Prelude.{Bool, ◌≡◌, ◌≢◌, ◌↔◌, ◌⊎◌, ℕ, ◌+◌, ◌*◌, ◌<◌, ◌≤◌, ◌^◌, ◌==◌, None, Some, length, MatchOption, slice_index, slice_set, IsTrue, bit_or, if◌then◌else◌};
ghost use Rattle.std.specs.Int.{bit_at};
ghost use Rattle.ip_bpf.specs.Programs as programs;
ghost use Rattle.ip_bpf.specs.Programs.{LoadsUnwritten, error_at, word_loaded, word_stored};

use crate::checks::MAX_INSTRUCTIONS;
use crate::{Instruction, Operation};

/// Returns the index of the first load of a word that isn't written on each path to it.
pub(crate) fn first_unwritten_load(program: &[Instruction]) -> Option<usize>
    requires few { length program.now ≤ 4096 }
    requires right { (index : ℕ) → index < length program.now → error_at program.now index ≡ None }
    ensures { MatchOption result ((index : ℕ) → index < length program.now → ¬ LoadsUnwritten program.now index)
        (λ index. (index < length program.now) × LoadsUnwritten program.now index
        × ((p : ℕ) → p < index → ¬ LoadsUnwritten program.now p)) }
{
    let mut unwritten = [0; MAX_INSTRUCTIONS];
    find_unwritten_load(program, &mut unwritten[..program.len()])
}

/// Goes over a program once. Bit k of `unwritten` at an index says that a path leads there without a store to word k.
fn find_unwritten_load(program: &[Instruction], unwritten: &mut [u16]) -> Option<usize>
    requires as_many { length unwritten.old ≡ length program.now }
    requires right { (index : ℕ) → index < length program.now → error_at program.now index ≡ None }
    ensures { MatchOption result ((index : ℕ) → index < length program.now → ¬ LoadsUnwritten program.now index)
        (λ index. (index < length program.now) × LoadsUnwritten program.now index
        × ((p : ℕ) → p < index → ¬ LoadsUnwritten program.now p)) }
{
    mark_start(unwritten);
    'places: for (place, instruction) in program.iter().enumerate() {
        let Some(operation) = instruction.operation() else {
            continue;
        };
        let words = unwritten[place];
        if loads_one_of(operation, words) {
            return Some(place);
        }
        mark_targets(
            unwritten,
            place,
            operation,
            without_stored(operation, words),
        );
    }
    None
}

/// Marks all words as unwritten at the first place, and none at the others.
fn mark_start(unwritten: &mut [u16])
    ensures len { length unwritten.new ≡ length unwritten.old }
    ensures marked { (p k : ℕ) → p < length unwritten.new → k < 16 → bit_at (slice_index unwritten.new p) k ≡ (if p == 0 then 1 else 0) }
{
    for (place, words) in unwritten.iter_mut().enumerate() {
        *words = if place == 0 { u16::MAX } else { 0 };
    }
}

/// Returns whether an operation loads one of these words.
fn loads_one_of(operation: Operation, words: u16) -> bool
    ensures { IsTrue result ↔ ((k : ℕ) × (k < 16) × (word_loaded (Some operation) ≡ Some k) × (bit_at words k ≡ 1)) }
{
    match operation {
        Operation::LoadMemory(_, k) => k < 16 && words >> k & 1 == 1,
        _ => false,
    }
}

/// Returns these words without the one that an operation stores.
fn without_stored(operation: Operation, words: u16) -> u16
    ensures { (k : ℕ) → k < 16 → (bit_at result k ≡ 1) ↔ ((bit_at words k ≡ 1) × (word_stored (Some operation) ≢ Some k)) }
{
    match operation {
        Operation::Store(_, k) if k < 16 => words & !(1 << k),
        _ => words,
    }
}

/// Returns the number of instructions that an operation skips, if its condition holds or if it doesn't.
fn skipped_if(is_met: bool, operation: Operation) -> usize
    ensures value { result ≡ programs.skipped_if is_met operation }
    ensures bound { result < 2 ^ 32 }
{
    match operation {
        Operation::Jump(k) => k as usize,
        Operation::Branch(_, _, jt, jf) => usize::from(if is_met { jt } else { jf }),
        _ => 0,
    }
}

/// Marks words as unwritten where an operation may lead.
fn mark_targets(unwritten: &mut [u16], place: usize, operation: Operation, words: u16)
    requires { place < length unwritten.old }
    ensures len { length unwritten.new ≡ length unwritten.old }
    ensures marked { (p k : ℕ) → p < length unwritten.new → (bit_at (slice_index unwritten.new p) k ≡ 1)
        ↔ ((bit_at (slice_index unwritten.old p) k ≡ 1)
        ⊎ ((bit_at words k ≡ 1) × ((is_met : Bool) × (p ≡ place + 1 + programs.skipped_if is_met operation)))) }
{
    mark(unwritten, place + 1 + skipped_if(true, operation), words);
    mark(unwritten, place + 1 + skipped_if(false, operation), words);
}

/// Marks words as unwritten at a place, if there is such a place.
fn mark(unwritten: &mut [u16], place: usize, words: u16)
    ensures { unwritten.new ≡ slice_set unwritten.old place (bit_or (slice_index unwritten.old place) words) }
{
    if place < unwritten.len() {
        unwritten[place] |= words;
    }
}
