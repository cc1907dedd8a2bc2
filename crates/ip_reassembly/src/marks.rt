//! Marks of units of 8 bytes, four in a byte, and bytes in a buffer.
ghost use Rattle.std.specs.Prelude.{◌≡◌, ◌≢◌, ℕ, ◌+◌, ◌-◌, ◌*◌, ◌/◌, ◌%◌, ◌^◌, ◌<◌, ◌≤◌, ◌++◌, ◌==◌, ◌&&◌, ◌↔◌, IsTrue, length, nat_le, nat_lt, slice_index, All, max, if◌then◌else◌, false};
ghost use Rattle.std.specs.List.{fold};
ghost use Rattle.ip_reassembly.specs.Reassembly.{first_mark};
ghost use Rattle.ip_reassembly.specs.Marks.{byte_mark, mark_of};
ghost use Rattle.ip_reassembly.specs.Run.{run_end, run_mark, mark_by};

use crate::run::Run;

/// The mark of a unit after the first one of a fragment.
const LATER: u8 = 3;

/// A byte with four marks of later units.
const FOUR_LATER: u8 = 255;

/// Returns the mark of a unit, 0 after all bytes.
#[inline(always)]
fn mark_of(marks: &[u8], unit: usize) -> u8
    ensures { result ≡ mark_of marks.now unit }
{
    match marks.get(unit / 4) {
        Some(byte) => (*byte >> (2 * (unit % 4))) % 4,
        None => 0,
    }
}

/// Returns the mark of a unit by a run, and after it by bytes.
#[inline(always)]
fn mark_by(run: Run, marks: &[u8], unit: usize) -> u8
    ensures { result ≡ mark_by run marks.now unit }
{
    if unit >= run.end() {
        return mark_of(marks, unit);
    }
    if unit % usize::from(run.units) == 0 {
        1
    } else {
        LATER
    }
}

/// Returns a byte with the marks of later units from `first` to `end`, and no others.
#[inline(always)]
fn later_marks(first: usize, end: usize) -> u8
    requires ordered { first ≤ end }
    requires within { end ≤ 4 }
    ensures { result ≡ 2 ^ (2 * end) - 2 ^ (2 * first) }
{
    ((1_u16 << (2 * end)) - (1_u16 << (2 * first))) as u8
}

/// Returns the largest byte. It looks at each one, so that several are compared at once.
#[inline(always)]
fn largest(bytes: &[u8]) -> u8
    ensures { result ≡ fold max 0 bytes.now }
{
    bytes.iter().fold(0, |largest, byte| largest.max(*byte))
}

/// Returns whether units of one byte have no mark.
#[inline(always)]
fn are_free_in(marks: &[u8], index: usize, first: usize, end: usize) -> bool
    requires index { index < length marks.now }
    requires ordered { first ≤ end }
    requires within { end ≤ 4 }
    ensures { IsTrue result
        ↔ ((i : ℕ) → 4 * index + first ≤ i → i < 4 * index + end → mark_of marks.now i ≡ 0) }
{
    marks[index] & later_marks(first, end) == 0
}

/// Returns whether the units of whole bytes have no mark.
#[inline(always)]
fn are_free_bytes(marks: &[u8], first: usize, end: usize) -> bool
    requires ordered { first ≤ end }
    requires within { end ≤ length marks.now }
    ensures { IsTrue result ↔ ((i : ℕ) → 4 * first ≤ i → i < 4 * end → mark_of marks.now i ≡ 0) }
{
    largest(&marks[first..end]) == 0
}

/// Returns whether these units have no mark. Four of them are tested at once.
#[inline(always)]
pub(crate) fn are_free(marks: &[u8], first: usize, end: usize) -> bool
    requires ordered { first ≤ end }
    requires within { end ≤ 4 * length marks.now }
    ensures { IsTrue result ↔ ((i : ℕ) → first ≤ i → i < end → mark_of marks.now i ≡ 0) }
{
    if first == end {
        return true;
    }
    let start = first / 4;
    let last = (end - 1) / 4;
    if start == last {
        return are_free_in(marks, start, first % 4, end - 4 * last);
    }
    if !are_free_in(marks, start, first % 4, 4) {
        return false;
    }
    if !are_free_bytes(marks, start + 1, last) {
        return false;
    }
    are_free_in(marks, last, 0, end - 4 * last)
}

/// Returns whether these units are in no fragment.
#[inline(always)]
pub(crate) fn are_free_by(run: Run, marks: &[u8], first: usize, end: usize) -> bool
    requires ordered { first ≤ end }
    requires within { end ≤ 4 * length marks.now }
    ensures free { IsTrue result
        ↔ ((i : ℕ) → first ≤ i → i < end → mark_by run marks.now i ≡ 0) }
    ensures some { result ≡ false → first < end }
{
    if first == end {
        return true;
    }
    if first < run.end() {
        return false;
    }
    are_free(marks, first, end)
}

/// Returns whether these units of a run are later units of a fragment: no fragment starts at one of them.
#[inline(always)]
fn are_later_in_run(run: Run, first: usize, end: usize) -> bool
    requires ordered { first < end }
    requires within { end ≤ run_end run }
    ensures { IsTrue result ↔ ((i : ℕ) → first ≤ i → i < end → run_mark run i ≡ 3) }
{
    let units = usize::from(run.units);
    let place = first % units;
    if place == 0 {
        return false;
    }
    place + (end - first) <= units
}

/// Returns whether units are marked as later units of a fragment, one by one.
#[inline(always)]
fn are_later_units(marks: &[u8], first: usize, end: usize) -> bool
    requires ordered { first ≤ end }
    ensures { IsTrue result ↔ ((i : ℕ) → first ≤ i → i < end → mark_of marks.now i ≡ 3) }
{
    'units: for unit in first..end {
        if mark_of(marks, unit) != LATER {
            return false;
        }
    }
    true
}

/// Returns whether all units of these bytes are marked as later units of a fragment.
#[inline(always)]
fn are_all_later(bytes: &[u8]) -> bool
    ensures { IsTrue result ↔ All (λ byte. byte ≡ 255) bytes.now }
{
    bytes.iter().all(|byte| *byte == FOUR_LATER)
}

/// Returns whether the units of whole bytes are marked as later units of a fragment.
#[inline(always)]
fn are_later_bytes(marks: &[u8], first: usize, end: usize) -> bool
    requires ordered { first ≤ end }
    requires within { end ≤ length marks.now }
    ensures { IsTrue result ↔ ((i : ℕ) → 4 * first ≤ i → i < 4 * end → mark_of marks.now i ≡ 3) }
{
    are_all_later(&marks[first..end])
}

/// Returns whether units are marked as later units of a fragment. Four of them are tested at once.
fn are_later_marks(marks: &[u8], first: usize, end: usize) -> bool
    requires ordered { first ≤ end }
    requires within { end ≤ 4 * length marks.now }
    ensures { IsTrue result ↔ ((i : ℕ) → first ≤ i → i < end → mark_of marks.now i ≡ 3) }
{
    let start = first.div_ceil(4);
    let last = end / 4;
    if start >= last {
        return are_later_units(marks, first, end);
    }
    if !are_later_units(marks, first, 4 * start) {
        return false;
    }
    if !are_later_bytes(marks, start, last) {
        return false;
    }
    are_later_units(marks, 4 * last, end)
}

/// Returns whether these units are later units of a fragment. Those in a run are not looked at one by one.
#[inline(always)]
fn are_later(run: Run, marks: &[u8], first: usize, end: usize) -> bool
    requires ordered { first ≤ end }
    requires within { end ≤ 4 * length marks.now }
    ensures { IsTrue result ↔ ((i : ℕ) → first ≤ i → i < end → mark_by run marks.now i ≡ 3) }
{
    let middle = run.end().max(first).min(end);
    if first < middle && !are_later_in_run(run, first, middle) {
        return false;
    }
    are_later_marks(marks, middle, end)
}

/// Returns whether these units are those of one fragment.
#[inline(always)]
pub(crate) fn is_fragment(run: Run, marks: &[u8], first: usize, end: usize, first_mark: u8) -> bool
    requires some { first < end }
    requires within { end ≤ 4 * length marks.now }
    ensures { IsTrue result ↔ (mark_by run marks.now first ≡ first_mark)
        × ((i : ℕ) → first + 1 ≤ i → i < end → mark_by run marks.now i ≡ 3)
        × (mark_by run marks.now end ≢ 3) }
{
    mark_by(run, marks, first) == first_mark
        && are_later(run, marks, first + 1, end)
        && mark_by(run, marks, end) != LATER
}

/// Stores bytes at an offset.
#[inline(always)]
pub(crate) fn store(buffer: &mut [u8], start: usize, bytes: &[u8])
    requires { start + length bytes.now ≤ length buffer.old }
    ensures { (i : ℕ) → slice_index buffer.new i ≡ (if nat_le start i && nat_lt i (start + length bytes.now)
        then slice_index bytes.now (i - start) else slice_index buffer.old i) }
{
    buffer[start..start + bytes.len()].copy_from_slice(bytes);
}

/// Marks units of one byte as later ones of a fragment.
#[inline(always)]
fn mark_in(marks: &mut [u8], index: usize, first: usize, end: usize)
    requires index { index < length marks.old }
    requires ordered { first ≤ end }
    requires within { end ≤ 4 }
    ensures len { length marks.new ≡ length marks.old }
    ensures marks { (i : ℕ) → mark_of marks.new i ≡ (if nat_le (4 * index + first) i && nat_lt i (4 * index + end)
        then 3 else mark_of marks.old i) }
{
    marks[index] |= later_marks(first, end);
}

/// Makes some bytes this one.
#[inline(always)]
fn fill(bytes: &mut [u8], first: usize, end: usize, byte: u8)
    requires ordered { first ≤ end }
    requires within { end ≤ length bytes.old }
    ensures len { length bytes.new ≡ length bytes.old }
    ensures bytes { (i : ℕ) → slice_index bytes.new i ≡ (if nat_le first i && nat_lt i end
        then byte else slice_index bytes.old i) }
{
    bytes[first..end].fill(byte);
}

/// Marks the units of whole bytes as later ones of a fragment.
#[inline(always)]
fn mark_bytes(marks: &mut [u8], first: usize, end: usize)
    requires ordered { first ≤ end }
    requires within { end ≤ length marks.old }
    ensures len { length marks.new ≡ length marks.old }
    ensures marks { (i : ℕ) → mark_of marks.new i ≡ (if nat_le (4 * first) i && nat_lt i (4 * end)
        then 3 else mark_of marks.old i) }
{
    fill(marks, first, end, FOUR_LATER);
}

/// Marks units as later ones of a fragment. Four of them are marked at once.
#[inline(always)]
fn mark_later(marks: &mut [u8], first: usize, end: usize)
    requires ordered { first < end }
    requires within { end ≤ 4 * length marks.old }
    ensures len { length marks.new ≡ length marks.old }
    ensures marks { (i : ℕ) → mark_of marks.new i ≡ (if nat_le first i && nat_lt i end
        then 3 else mark_of marks.old i) }
{
    let start = first / 4;
    let last = (end - 1) / 4;
    if start == last {
        mark_in(marks, start, first % 4, end - 4 * last);
    } else {
        mark_in(marks, start, first % 4, 4);
        mark_bytes(marks, start + 1, last);
        mark_in(marks, last, 0, end - 4 * last);
    }
}

/// Makes the mark of a later unit that of the first unit of a fragment, which has one bit less.
#[inline(always)]
fn mark_first(marks: &mut [u8], unit: usize, more: bool)
    requires within { unit < 4 * length marks.old }
    requires later { mark_of marks.old unit ≡ 3 }
    ensures { (i : ℕ) → mark_of marks.new i ≡ (if i == unit then first_mark more else mark_of marks.old i) }
{
    marks[unit / 4] &= !(1_u8 << (2 * (unit % 4) + usize::from(more)));
}

/// Marks the units of a fragment.
#[inline(always)]
pub(crate) fn mark(marks: &mut [u8], first: usize, end: usize, more: bool)
    requires ordered { first ≤ end }
    requires within { end ≤ 4 * length marks.old }
    ensures { (i : ℕ) → mark_of marks.new i ≡ (if nat_le first i && nat_lt i end
        then (if i == first then first_mark more else 3) else mark_of marks.old i) }
{
    if first < end {
        mark_later(marks, first, end);
        mark_first(marks, first, more);
    }
}

/// Marks the units of a fragment that are in no other one. A fragment that continues the run has no marks: memory that no
/// fragment needs is not touched. Returns the run.
#[inline(always)]
pub(crate) fn mark_by_run(run: Run, marks: &mut [u8], first: usize, end: usize, more: bool) -> Run
    requires ordered { first ≤ end }
    requires within { end ≤ 4 * length marks.old }
    requires units { end ≤ 8192 }
    ensures marks { ((i : ℕ) → first ≤ i → i < end → mark_by run marks.old i ≡ 0)
        → (i : ℕ) → mark_by result marks.new i ≡ (if nat_le first i && nat_lt i end
        then (if i == first then first_mark more else 3) else mark_by run marks.old i) }
    ensures unused { ((i : ℕ) → first ≤ i → i < end → mark_by run marks.old i ≡ 0)
        → ((i : ℕ) → i < run_end run → mark_of marks.old i ≡ 0)
        → (i : ℕ) → i < run_end result → mark_of marks.new i ≡ 0 }
{
    match run.with(first, end, more) {
        Some(longer) => longer,
        None => {
            mark(marks, first, end, more);
            run
        }
    }
}

/// Removes the marks in the bytes from `first` to `end`.
#[inline(always)]
pub(crate) fn unmark(marks: &mut [u8], first: usize, end: usize)
    requires ordered { first ≤ end }
    requires within { end ≤ length marks.old }
    ensures { (i : ℕ) → mark_of marks.new i
        ≡ (if nat_le (4 * first) i && nat_lt i (4 * end) then 0 else mark_of marks.old i) }
{
    fill(marks, first, end, 0);
}
