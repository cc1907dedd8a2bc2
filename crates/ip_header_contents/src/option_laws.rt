//! A law of options, proved as the contract of a call.
ghost use Rattle.std.specs.Prelude.{ℕ, List, drop};
ghost use Rattle.std.specs.List.{flat_map};
ghost use Rattle.ip_base.specs.Prefix.{IsPrefix};
ghost use Rattle.ip_header_contents.specs.Options.{OptionFields, StartsWithOption, option_bytes, options_in, options_len};

/// Proves that bytes start with the bytes of their options, and that no option follows these.
#[tactic(auto, using(crate::proofs::OptionLemmas::all_bytes, crate::proofs::OptionLemmas::all_whole))]
pub fn options_begin_the_bytes()
    ensures prefix { (b : List ℕ) → IsPrefix (flat_map option_bytes (options_in b)) b }
    ensures end { (b : List ℕ) (o : OptionFields)
        → StartsWithOption (drop (options_len (options_in b)) b) o → ⊥ }
{}
