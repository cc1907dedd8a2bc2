//! Laws of the internet checksum, proved as the contract of a call.
ghost use Rattle.std.specs.Prelude.{◌≡◌, ◌≤◌, ◌<◌, ◌+◌, ◌-◌, ◌*◌, ℕ, List, length};
ghost use Rattle.ip_base.specs.Checksum.{add_ones, word_of, ones_sum, checksum_of, with_word};
ghost use Rattle.std.specs.List.{All};

/// Shows what the checksum of a header is for. `whole`: the words of a header with its checksum have the sum 65,535 (RFC
/// 1071, section 1). `updated`: the checksum after one word is changed follows from the old one, unless all words are 0
/// then (RFC 1624, section 3).
pub fn headers_are_summed()
    ensures whole { (b : List ℕ) (i : ℕ) → All (λ x. x < 256) b → 2 * i + 1 < length b
        → ones_sum (with_word b (2 * i) (checksum_of (with_word b (2 * i) 0))) ≡ 65535 }
    ensures updated { (b : List ℕ) (i n : ℕ) → All (λ x. x < 256) b → 2 * i + 1 < length b → n ≤ 65535
        → 0 < ones_sum (with_word b (2 * i) n)
        → checksum_of (with_word b (2 * i) n)
        ≡ 65535 - add_ones (add_ones (65535 - checksum_of b) (65535 - word_of b i)) n }
{}
