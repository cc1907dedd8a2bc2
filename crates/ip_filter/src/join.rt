//! Operands that flags or the base header decide: joined to one test, or asked first.
ghost use Rattle.std.specs.Prelude.{◌≡◌, ◌<◌, ◌≤◌, ◌+◌, ◌==◌, ℕ, List, [], ◌∷◌, ◌++◌, length, take, if◌then◌else◌, IfSome, IfNone};
ghost use Rattle.ip_filter.specs.Formula.{Formula, truth};
ghost use Rattle.ip_filter.specs.Compiled.{Subject, subject_holds, Decide, led_by, joined_by, decided, index_shifted, shifted, put_first};
ghost use Rattle.ip_filter.specs.declared.filter.Test.{Test as TheTest};

use crate::Test;
use crate::compile::redirected;
use crate::meets::kind;
use crate::run::PASSED;
use crate::test_of::REFUSED;

/// Joins the last test to the formula of the tests before it, which start at this index: to the first of them, if one mask
/// of flags has both, or else before them, if it is asked before them. Returns how many tests there are then, or `None` if
/// nothing has changed.
pub(crate) fn join_early(tests: &mut [Test], start: u8, is_and: bool) -> Option<usize>
    requires { start < 64 }
    ensures none { IfNone result (tests.new ≡ tests.old) }
    ensures some { IfSome result (λ n. (0 < n) × (n ≤ length tests.old)) }
    ensures len { length tests.new ≡ length tests.old }
    ensures decide { IfSome result (λ n. (subject : Subject) (f g : Formula) (xs : List TheTest) (z : TheTest)
        → tests.old ≡ xs ++ z ∷ [] → start + length tests.old ≤ 64 → Decide subject f start xs
        → led_by subject z ≡ (if truth g (subject_holds subject) then 64 else 65)
        → Decide subject (joined_by is_and f g) start (take n tests.new)) }
{
    let count = tests.len();
    if count < 2 {
        return None;
    }
    let last = tests[count - 1];
    if let Some(merged) = merged(&tests[0], &last, decided(is_and)) {
        tests[0] = merged;
        return Some(count - 1);
    }
    if !is_asked_first(&last, &tests[0], &tests[count - 2]) {
        return None;
    }
    put_first(tests, leading_on(&last, start + 1, is_and));
    Some(count)
}

/// Returns whether the last test is asked before the others, of which these are the first and the last. Tests of the base
/// header come before all others, since they need no walk, and tests of flags before those that need more than flags.
fn is_asked_first(last: &Test, first: &Test, before: &Test) -> bool {
    if last.is_of_base() {
        !before.is_of_base()
    } else {
        last.kind == kind::FLAGS && before.kind != kind::FLAGS && !first.is_of_base()
    }
}

/// Returns the index to which an operand leads that decides: a false one of `and`, or a true one of `or`.
fn decided(is_and: bool) -> u8
    ensures { result ≡ decided is_and }
{
    if is_and { REFUSED as u8 } else { PASSED as u8 }
}

/// Returns the first of two operands' tests so that it also leads to the index `decided` if the second one does. There is
/// such a test if both lead there for flags that are set.
fn merged(first: &Test, second: &Test, decided: u8) -> Option<Test>
    ensures { IfSome result (λ t. (subject : Subject) → led_by subject t
        ≡ (if led_by subject second.now == decided then decided else led_by subject first.now)) }
{
    if first.kind != kind::FLAGS || second.kind != kind::FLAGS {
        return None;
    }
    if first.if_met != decided || second.if_met != decided || second.if_not == decided {
        return None;
    }
    Some(Test {
        number: first.number | second.number,
        ..*first
    })
}

/// Returns the test of an operand, which leads to the index `next` if it doesn't decide.
fn leading_on(test: &Test, next: u8, is_and: bool) -> Test
    ensures { (subject : Subject) (g : Formula)
        → led_by subject test.now ≡ (if truth g (subject_holds subject) then 64 else 65)
        → led_by subject result ≡ (if truth g (subject_holds subject) then (if is_and then next else 64)
        else (if is_and then 65 else next)) }
{
    if is_and {
        redirected(test, next, REFUSED as u8)
    } else {
        redirected(test, PASSED as u8, next)
    }
}

/// Puts a test before the others, each of which moves on by one. The last one is gone.
fn put_first(tests: &mut [Test], first: Test)
    ensures { tests.new ≡ put_first first tests.old }
{
    let mut carried = first;
    'tests: for i in 0..tests.len() {
        let test = tests[i];
        tests[i] = carried;
        carried = shifted(&test);
    }
}

/// Returns the test, moved on by one.
fn shifted(test: &Test) -> Test
    ensures { result ≡ shifted test.now }
{
    Test {
        if_met: index_shifted(test.if_met),
        if_not: index_shifted(test.if_not),
        ..*test
    }
}

/// Returns the index of a test that has moved on by one.
fn index_shifted(index: u8) -> u8
    ensures { result ≡ index_shifted index }
{
    if usize::from(index) < PASSED {
        index + 1
    } else {
        index
    }
}
