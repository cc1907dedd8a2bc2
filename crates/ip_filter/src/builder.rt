//! A filter while its text is read, from left to right.
ghost use Rattle.std.specs.Prelude.{◌≡◌, ◌≤◌, ◌+◌, ℕ, Option, is_some, List, [], ◌∷◌, true, false, codes, IfOk, IfErr};
ghost use Rattle.arrayvec.specs.ArrayVec.{array_vec_len};
ghost use Rattle.ip_filter.specs.Formula.{Formula};
ghost use Rattle.ip_filter.specs.Compiled.{terms_of_all, HasCompiled};
ghost use Rattle.ip_filter.specs.Qualifiers.{says, says_named};
ghost use Rattle.ip_filter.specs.Grammar.{Operand, Conjunction, Disjunction, a_primitive, a_group, operand_formula, conjunction_formula, formula_of};
ghost use Rattle.ip_filter.specs.Words.{Word as Text};
ghost use Rattle.ip_filter.specs.Reading.{IsFirstWord};
ghost use Rattle.ip_filter.specs.Parsing.{Open, State, before, after, nothing_open, with_operand, and_joined, or_joined, or_formulas, and_formulas, state_terms, CountsFit, Holds, HoldsOperand, HoldsGroup, IsFinished, ReadsOn, RefusesFrom, IsDue, IsWhole};

use crate::Expected;
use crate::arguments::Unexpected;
use crate::compile::Compiler;
use crate::operators::{is_and, is_not, is_or};
use crate::primitive::{MAX_TERMS, read_primitive};
use crate::qualifiers::{Named, Primitive, Qualifiers};
use crate::words::Word;
use arrayvec::ArrayVec;

/// The text or an open group: what waits for the next operand there.
#[derive(Clone, Copy, Default)]
pub(crate) struct Level {
    /// How many words `not` precede it.
    pub nots: u64,
    /// Whether an `or` does, after its left operand.
    pub or_waits: bool,
    /// Whether an `and` does, after its left operand.
    pub and_waits: bool,
}

/// A filter while its text is read.
#[derive(Drop)]
pub(crate) struct Builder {
    /// The tests of what was read.
    pub compiler: Compiler,
    /// How many terms there are.
    pub terms: usize,
    /// The levels around the last one, the innermost last.
    pub outer: ArrayVec<Level, 16>,
    /// The last level.
    pub level: Level,
    /// Whether an operand was just read.
    pub has_operand: bool,
    /// The qualifiers of the last primitive, if an identifier can take them.
    pub leaves: Option<Qualifiers>,
}

impl Builder {
    /// Returns the start of a filter.
    pub(crate) fn new() -> Builder
        ensures { Holds (before [] nothing_open) result }
    {
        Builder {
            compiler: Compiler::new(),
            terms: 0,
            outer: ArrayVec::new(),
            level: Level::default(),
            has_operand: false,
            leaves: None,
        }
    }

    /// Reads on from the word, and returns the text after what was read.
    pub(crate) fn read<'a>(&mut self, word: Word<'a>) -> Result<&'a [u8], Unexpected>
        ensures ok { IfOk result (λ rest. (text : List ℕ) (s : State) → IsFirstWord text word.entry
            → Holds s self.old → CountsFit s → ReadsOn s text rest.now self.new) }
        ensures err { IfErr result (λ e. (text : List ℕ) (s : State) → IsFirstWord text word.entry
            → Holds s self.old → RefusesFrom s text e.left e.expected) }
    {
        if self.has_operand {
            self.read_operator(word)
        } else {
            self.read_operand(word)
        }
    }

    /// Reads an operand, or a word that may precede one.
    fn read_operand<'a>(&mut self, word: Word<'a>) -> Result<&'a [u8], Unexpected>
        ensures ok { IfOk result (λ rest. (text : List ℕ) (fs : List Open) (f : Open)
            → IsFirstWord text word.entry → Holds (before fs f) self.old → CountsFit (before fs f)
            → ReadsOn (before fs f) text rest.now self.new) }
        ensures err { IfErr result (λ e. (text : List ℕ) (fs : List Open) (f : Open)
            → IsFirstWord text word.entry → Holds (before fs f) self.old
            → RefusesFrom (before fs f) text e.left e.expected) }
    {
        if is_not(word.bytes) {
            self.level.nots = self.level.nots.saturating_add(1);
            return Ok(word.rest);
        }
        if word.bytes == b"(".as_slice() {
            if self.outer.is_full() {
                return Err(word.unexpected(Expected::LessNesting));
            }
            self.outer.push(self.level);
            self.level = Level::default();
            return Ok(word.rest);
        }
        match read_primitive(self.leaves, self.terms, word) {
            Ok((primitive, rest)) => {
                self.add(primitive);
                self.end_operand();
                Ok(rest)
            }
            Err(unexpected) => Err(unexpected),
        }
    }

    /// Adds a primitive.
    fn add(&mut self, primitive: Primitive)
        ensures { (fs : List Open) (f : Open) (w : Text) (us : List Text) → Holds (before fs f) self.old
            → state_terms (with_operand fs f (a_primitive w us primitive)) ≤ 64
            → HoldsOperand fs f (a_primitive w us primitive) self.new }
    {
        add_primitive(&mut self.compiler, primitive);
        self.terms = self.terms.saturating_add(primitive.terms());
        self.leaves = primitive.leaves;
    }

    /// Reads an operator, or the end of a group.
    fn read_operator<'a>(&mut self, word: Word<'a>) -> Result<&'a [u8], Unexpected>
        ensures ok { IfOk result (λ rest. (text : List ℕ) (fs : List Open) (o : Option (Disjunction × Text)) (c : Conjunction)
            → IsFirstWord text word.entry → Holds (after fs o c) self.old → CountsFit (after fs o c)
            → ReadsOn (after fs o c) text rest.now self.new) }
        ensures err { IfErr result (λ e. (text : List ℕ) (fs : List Open) (o : Option (Disjunction × Text)) (c : Conjunction)
            → IsFirstWord text word.entry → Holds (after fs o c) self.old
            → RefusesFrom (after fs o c) text e.left e.expected) }
    {
        if is_and(word.bytes) {
            if self.terms >= MAX_TERMS {
                return Err(word.unexpected(Expected::FewerTerms));
            }
            self.level.and_waits = true;
            self.has_operand = false;
            return Ok(word.rest);
        }
        if is_or(word.bytes) {
            if self.terms >= MAX_TERMS {
                return Err(word.unexpected(Expected::FewerTerms));
            }
            join_or(&mut self.compiler, self.level.or_waits);
            self.level.or_waits = true;
            self.has_operand = false;
            return Ok(word.rest);
        }
        if word.bytes == b")".as_slice() {
            return match self.outer.pop() {
                Some(outer) => {
                    self.close(outer);
                    Ok(word.rest)
                }
                None => Err(word.unexpected(Expected::OperatorOrEnd)),
            };
        }
        if self.outer.is_empty() {
            return Err(word.unexpected(Expected::OperatorOrEnd));
        }
        Err(word.unexpected(Expected::OperatorOrClose))
    }

    /// Closes the last group: its formula is an operand in the level around it.
    fn close(&mut self, outer: Level)
        ensures { (fs : List Open) (f : Open) (o : Option (Disjunction × Text)) (c : Conjunction)
            → HoldsGroup fs f o c outer self.old → CountsFit (after (f ∷ fs) o c)
            → Holds (with_operand fs f (a_group (or_joined o c))) self.new }
    {
        join_or(&mut self.compiler, self.level.or_waits);
        self.level = outer;
        self.end_operand();
    }

    /// Negates the operand whose formula is the last one, and joins it to what waits for it.
    fn end_operand(&mut self)
        ensures { (fs : List Open) (f : Open) (u : Operand) → HoldsOperand fs f u self.old
            → state_terms (with_operand fs f u) ≤ 64 → Holds (with_operand fs f u) self.new }
    {
        self.compiler.negate_last(self.level.nots);
        join_and(&mut self.compiler, self.level.and_waits);
        self.level.nots = 0;
        self.level.and_waits = false;
        self.has_operand = true;
    }
}

impl Builder {
    /// Ends the filter at the end of the text, or returns what is missing there.
    #[tactic(auto, using(crate::proofs::OperatorLemmas::finished, crate::proofs::OperatorLemmas::operand_missing, crate::proofs::OperatorLemmas::close_missing))]
    pub(crate) fn finish(&mut self) -> Result<(), Expected>
        ensures ok { IfOk result (λ x. (s : State) → Holds s self.old → CountsFit s → IsFinished s self.new.compiler) }
        ensures err { IfErr result (λ e. (s : State) → Holds s self.old
            → IsDue s [] [] e × (IsWhole s → ⊥)) }
    {
        if !self.has_operand {
            return Err(Expected::Operand);
        }
        if !self.outer.is_empty() {
            return Err(Expected::OperatorOrClose);
        }
        join_or(&mut self.compiler, self.level.or_waits);
        Ok(())
    }
}

/// Appends the formula of a primitive.
fn add_primitive(compiler: &mut Compiler, primitive: Primitive)
    ensures { (fs : List Formula) → terms_of_all (says primitive ∷ fs) ≤ 64
        → HasCompiled fs compiler.old → HasCompiled (says primitive ∷ fs) compiler.new }
{
    match primitive.protocol {
        Some(protocol) => {
            compiler.add(protocol.term());
            add_named(compiler, primitive.named);
            compiler.join(true);
        }
        None => add_named(compiler, primitive.named),
    }
}

/// Appends what an identifier says.
fn add_named(compiler: &mut Compiler, named: Named)
    ensures { (fs : List Formula) → terms_of_all (says_named named ∷ fs) ≤ 64
        → HasCompiled fs compiler.old → HasCompiled (says_named named ∷ fs) compiler.new }
{
    match named {
        Named::Term(term) => compiler.add(term),
        Named::Both(first, second) => {
            compiler.add(first);
            compiler.add(second);
            compiler.join(true);
        }
        Named::Either(first, second) => {
            compiler.add(first);
            compiler.add(second);
            compiler.join(false);
        }
    }
}

/// Joins the last operand to the conjunction before it, if one waits.
fn join_and(to: &mut Compiler, waits: bool)
    ensures { (a : Option (Conjunction × Text)) (u : Operand) (fs : List Formula) → waits ≡ is_some a
        → terms_of_all (conjunction_formula (and_joined a u) ∷ fs) ≤ 64
        → HasCompiled (operand_formula u ∷ and_formulas a fs) to.old
        → HasCompiled (conjunction_formula (and_joined a u) ∷ fs) to.new }
{
    if waits {
        to.join(true);
    }
}

/// Joins the last conjunction to the disjunction before it, if one waits.
fn join_or(to: &mut Compiler, waits: bool)
    ensures { (o : Option (Disjunction × Text)) (c : Conjunction) (fs : List Formula) → waits ≡ is_some o
        → terms_of_all (formula_of (or_joined o c) ∷ fs) ≤ 64
        → HasCompiled (conjunction_formula c ∷ or_formulas o fs) to.old
        → HasCompiled (formula_of (or_joined o c) ∷ fs) to.new }
{
    if waits {
        to.join(false);
    }
}
