//! Laws of filters: each layer that a term about an error can name is that of some packet's header, and the words for codes
//! are those that filters read.
ghost use Rattle.std.specs.Prelude.{◌≡◌, ℕ, List, [], true, Some, slice_index_or, ◌+◌};
ghost use Rattle.ip_base.specs.declared.err.layer.Layer.{Layer};
ghost use Rattle.ip_spec.specs.Encoding.{AreBytes};
ghost use Rattle.ip_codes.specs.Codes.{layer_code};
ghost use Rattle.ip_codes.specs.CodeWords.{kind_words, layer_words};
ghost use Rattle.ip_dissect.specs.Dissection.{dissected};
ghost use Rattle.ip_filter.specs.Layers.{can_be_truncated, can_be_faulty};
ghost use Rattle.ip_filter.specs.Numbers.{fault_kind_of, layer_named};
ghost use Rattle.ip_filter.specs.Truth.{holds, kind_index};
ghost use Rattle.ip_filter.specs.declared.term.FaultKind.{FaultKind};
ghost use Rattle.ip_filter.specs.declared.term.FaultKind.TheVariants.{TooShort};
ghost use Rattle.ip_filter.specs.declared.term.Term.TheVariants.{TruncatedAt, FaultAt};

/// Proves that `truncated LAYER` and `fault KIND LAYER` hold of some bytes, for each layer that the grammar has there.
#[tactic(auto, using(crate::proofs::LayerLemmas::truncated_somewhere, crate::proofs::LayerLemmas::faulty_somewhere))]
pub fn each_layer_has_a_packet()
    ensures truncated { (l : Layer) → can_be_truncated l ≡ true
        → (s : List ℕ) × AreBytes s × (holds (TruncatedAt l) (dissected s) ≡ true) }
    ensures faulty { (k : FaultKind) (l : Layer) → can_be_faulty k l ≡ true
        → (s : List ℕ) × AreBytes s × (holds (FaultAt k l) (dissected s) ≡ true) }
{}

/// Proves that a filter reads the word for the layer of a header, and the word for a kind of error, as those.
#[tactic(auto, using(crate::proofs::WordLemmas::layer_of_word, crate::proofs::WordLemmas::layer_of_short_word, crate::proofs::WordLemmas::kind_of_word))]
pub fn words_are_those_of_filters()
    ensures layers { (l : Layer) → can_be_truncated l ≡ true
        → layer_named (slice_index_or layer_words (layer_code l) []) ≡ Some l }
    ensures packets { (l : Layer) → can_be_faulty TooShort l ≡ true
        → layer_named (slice_index_or layer_words (layer_code l) []) ≡ Some l }
    ensures kinds { (k : FaultKind) → fault_kind_of (slice_index_or kind_words (kind_index k + 1) []) ≡ Some k }
{}
