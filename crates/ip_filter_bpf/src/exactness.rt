//! What a compiled filter says of packets.
ghost use Rattle.std.specs.Prelude.{◌≡◌, ℕ, List, true};
ghost use Rattle.std.specs.List.{list_all};
ghost use Rattle.ip_dissect.specs.Dissection.{dissected};
ghost use Rattle.ip_filter.specs.Program.{passes, tests_of};
ghost use Rattle.ip_filter.specs.Tests.{meets};
ghost use Rattle.ip_filter_bpf.specs.Verdict.{is_decided, verdict};
ghost use Rattle.ip_filter_bpf.specs.declared.undecided.Undecided.{Undecided};
ghost use Rattle.ip_filter_bpf.specs.declared.undecided.Undecided.TheVariants.{Keep, Drop};

use ip_filter::Filter;

/// Proves what a compiled filter says of packets: with `Keep` it accepts each packet that the filter matches, and with `Drop`
/// none that the filter doesn't match. Where the program decides all tests, it accepts exactly those.
pub fn verdicts_err_on_one_side(filter: &Filter)
    ensures keep { (s : List ℕ) → passes (tests_of filter.now) (λ x. meets x (dissected s)) ≡ true
        → verdict Keep filter.now s ≡ true }
    ensures drop { (s : List ℕ) → verdict Drop filter.now s ≡ true
        → passes (tests_of filter.now) (λ x. meets x (dissected s)) ≡ true }
    ensures exact { (u : Undecided) (s : List ℕ) → list_all is_decided (tests_of filter.now) ≡ true
        → verdict u filter.now s ≡ passes (tests_of filter.now) (λ x. meets x (dissected s)) }
{
    let _ = filter.used_tests();
}
