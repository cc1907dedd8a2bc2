//! Compiles formulas to tests.
ghost use Rattle.std.specs.Prelude.{◌≡◌, ◌<◌, ◌≤◌, ◌+◌, ℕ, List, [], ◌∷◌, ◌++◌, length, take, drop, true, false};
ghost use Rattle.arrayvec.specs.ArrayVec.{array_vec_len};
ghost use Rattle.ip_filter.specs.Formula.{Formula, single, negated};
ghost use Rattle.ip_filter.specs.Program.{tests_of};
ghost use Rattle.ip_filter.specs.Compiled.{Subject, terms_of_all, joined_by, AreCompiled, HasCompiled, index_moved, redirected, redirected_from};

use crate::join::join_early;
use crate::run::PASSED;
use crate::test_of::REFUSED;
use crate::{Filter, Term, Test};
use arrayvec::ArrayVec;

/// The most tests of a filter.
const MAX_TESTS: usize = 64;

/// A filter while its text is read, from left to right. The tests of each formula that was read follow one another, and
/// lead to index 64 if it holds, otherwise to 65.
#[derive(Drop)]
pub(crate) struct Compiler {
    /// The tests so far.
    pub filter: Filter,
    /// Where the tests of each formula start, the last formula last.
    pub starts: ArrayVec<u8, 64>,
}

impl Compiler {
    /// Returns no tests.
    pub(crate) fn new() -> Compiler
        ensures { HasCompiled [] result }
    {
        let unused = Test {
            number: 0,
            address_high: 0,
            address_low: 0,
            kind: 0,
            comparison: 0,
            version: 0,
            prefix_len: 0,
            if_met: 0,
            if_not: 0,
        };
        Compiler {
            filter: Filter {
                count: 0,
                tests: [unused; MAX_TESTS],
            },
            starts: ArrayVec::new(),
        }
    }

    /// Appends a term.
    pub(crate) fn add(&mut self, term: Term)
        ensures { (fs : List Formula) → terms_of_all (single term ∷ fs) ≤ 64
            → HasCompiled fs self.old → HasCompiled (single term ∷ fs) self.new }
    {
        self.push(Test::of(term));
    }

    /// Appends a test.
    fn push(&mut self, test: Test)
        ensures tests { length (tests_of self.old.filter) < 64 → length self.old.starts.items < 64
            → tests_of self.new.filter ≡ tests_of self.old.filter ++ test ∷ [] }
        ensures starts { length (tests_of self.old.filter) < 64 → length self.old.starts.items < 64
            → self.new.starts.items ≡ self.old.starts.items ++ length (tests_of self.old.filter) ∷ [] }
    {
        let count = self.filter.count;
        if count < MAX_TESTS && !self.starts.is_full() {
            self.filter.tests[count] = test;
            self.filter.count = count + 1;
            self.starts.push(count as u8);
        }
    }

    /// Joins the last two formulas.
    pub(crate) fn join(&mut self, is_and: bool)
        ensures { (f g : Formula) (fs : List Formula) → terms_of_all (g ∷ f ∷ fs) ≤ 64
            → HasCompiled (g ∷ f ∷ fs) self.old → HasCompiled (joined_by is_and f g ∷ fs) self.new }
    {
        if let Some(second) = self.starts.pop() {
            self.join_at(second, is_and);
        }
    }

    /// Joins the formula whose tests start at the index `second`, the last ones, to the one before.
    fn join_at(&mut self, second: u8, is_and: bool)
        ensures { (subject : Subject) (f g : Formula) (fs : List Formula) → terms_of_all (g ∷ f ∷ fs) ≤ 64
            → AreCompiled subject (g ∷ f ∷ fs) (self.old.starts.items ++ second ∷ []) (tests_of self.old.filter)
            → AreCompiled subject (joined_by is_and f g ∷ fs) self.new.starts.items (tests_of self.new.filter) }
    {
        if self.join_early_at(usize::from(second), is_and) {
            return;
        }
        let (if_met, if_not) = if is_and {
            (second, REFUSED as u8)
        } else {
            (PASSED as u8, second)
        };
        self.redirect(usize::from(second), if_met, if_not);
    }

    /// Joins the formula whose test is the one with the index `second` to the one before, if it is to be asked first. Returns
    /// whether it has.
    fn join_early_at(&mut self, second: usize, is_and: bool) -> bool
        ensures joined { result ≡ true → (subject : Subject) (f g : Formula) (fs : List Formula)
            → terms_of_all (g ∷ f ∷ fs) ≤ 64
            → AreCompiled subject (g ∷ f ∷ fs) (self.old.starts.items ++ second ∷ []) (tests_of self.old.filter)
            → AreCompiled subject (joined_by is_and f g ∷ fs) self.new.starts.items (tests_of self.new.filter) }
        ensures none { result ≡ false → self.new ≡ self.old }
    {
        let starts = self.starts.len();
        let end = self.filter.count;
        if starts == 0 || end > MAX_TESTS || second >= end || end - second != 1 {
            return false;
        }
        let start = self.starts[starts - 1];
        let first = usize::from(start);
        if first >= second {
            return false;
        }
        match join_early(&mut self.filter.tests[first..end], start, is_and) {
            Some(count) => {
                self.filter.count = first + count;
                true
            }
            None => false,
        }
    }

    /// Negates the last formula `nots` times.
    pub(crate) fn negate_last(&mut self, nots: u64)
        ensures { (f : Formula) (fs : List Formula) → terms_of_all (f ∷ fs) ≤ 64
            → HasCompiled (f ∷ fs) self.old → HasCompiled (negated nots f ∷ fs) self.new }
    {
        if nots % 2 == 1 {
            self.redirect(
                self.filter.count.min(MAX_TESTS),
                REFUSED as u8,
                PASSED as u8,
            );
        }
    }

    /// Redirects the tests from the last start to index `end`, exclusive.
    fn redirect(&mut self, end: usize, if_met: u8, if_not: u8)
        ensures tests { (rest : List ℕ) (i : ℕ) → self.old.starts.items ≡ rest ++ i ∷ [] → i ≤ end
            → end ≤ length (tests_of self.old.filter) → tests_of self.new.filter
            ≡ redirected_from i if_met if_not (take end (tests_of self.old.filter)) ++ drop end (tests_of self.old.filter) }
        ensures starts { self.new.starts.items ≡ self.old.starts.items }
    {
        let count = self.starts.len();
        if count == 0 {
            return;
        }
        let start = usize::from(self.starts[count - 1]);
        redirect(
            &mut self.filter.tests[..end.min(MAX_TESTS)],
            start,
            if_met,
            if_not,
        );
    }
}

/// Redirects the tests from index `start` on.
fn redirect(tests: &mut [Test], start: usize, if_met: u8, if_not: u8)
    ensures { start ≤ length tests.old → tests.new ≡ redirected_from start if_met if_not tests.old }
{
    'tests: for i in start..tests.len() {
        tests[i] = redirected(&tests[i], if_met, if_not);
    }
}

/// Returns the test, redirected.
pub(crate) fn redirected(test: &Test, if_met: u8, if_not: u8) -> Test
    ensures { result ≡ redirected if_met if_not test.now }
{
    Test {
        if_met: index_moved(test.if_met, if_met, if_not),
        if_not: index_moved(test.if_not, if_met, if_not),
        ..*test
    }
}

/// Returns the index that is led to in place of this one.
fn index_moved(index: u8, if_met: u8, if_not: u8) -> u8
    ensures { result ≡ index_moved if_met if_not index }
{
    match usize::from(index) {
        PASSED => if_met,
        REFUSED => if_not,
        _ => index,
    }
}
