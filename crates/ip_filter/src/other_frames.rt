//! Runs the tests of a filter on a frame that is not IP.
ghost use Rattle.std.specs.Prelude.{◌≡◌, ◌≤◌, length, false};
ghost use Rattle.ip_filter.specs.Program.{tests_of, passes};

use crate::run::PASSED;
use crate::{Filter, Test};

impl Filter {
    /// Returns whether a frame passes that is not IP: it meets no test.
    pub fn matches_other(&self) -> bool
        ensures { result ≡ passes (tests_of self.now) (λ x. false) }
    {
        run_other(self.used_tests())
    }
}

/// Returns whether a frame passes that meets no test.
fn run_other(tests: &[Test]) -> bool
    requires { length tests.now ≤ 64 }
    ensures { result ≡ passes tests.now (λ x. false) }
{
    let mut next = 0;
    'tests: while next < tests.len() {
        let after = usize::from(tests[next].if_not);
        if after <= next {
            return false;
        }
        next = after;
    }
    next == PASSED
}
