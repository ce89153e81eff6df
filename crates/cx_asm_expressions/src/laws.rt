//! What follows from the definitions of terms and expressions.

ghost use Rattle.std.specs.Prelude.{◌≡◌, ◌∷◌, ◌↔◌, ◌<◌, ◌^◌, ℕ, List, Option, Some, true, length};
ghost use Rattle.std.specs.List.{flat_map};
ghost use Rattle.std.specs.Str.{byte};
ghost use Rattle.cx_asm_expressions.specs.Digits.{is_number, number_in};
ghost use Rattle.cx_asm_expressions.specs.Faults.{lowest};
ghost use Rattle.cx_asm_expressions.specs.Kinds.{kind_of, row_of_kind};
ghost use Rattle.cx_asm_expressions.specs.Laws.FaultLaws.{IsLowest};
ghost use Rattle.cx_asm_expressions.specs.declared.faults.FaultKind.{FaultKind};
ghost use Rattle.cx_asm_expressions.specs.declared.kinds.ConstantKind.{ConstantKind};
ghost use Rattle.cx_asm_expressions.specs.Terms.{Term, terms_of, term_text};
ghost use Rattle.cx_asm_expressions.specs.Texts.{character_number, characters};
ghost use Rattle.cx_asm_expressions.specs.Weights.{Weighs, relocation};
ghost use Rattle.cx_asm_expressions.specs.declared.expressions.Signed.{Signed};

/// The terms of an expression, written one after the other, each with its sign, are a plus and the expression's text.
#[tactic(auto, using(crate::proofs::WrittenLemmas::written_again))]
pub fn terms_written_again_are_the_text()
    ensures { (text : List ℕ) (all : List Term) → terms_of text ≡ Some all
        → flat_map term_text all ≡ byte "+" ∷ text }
{}

/// A sum weighs in at most one way: it is absolute, or a place in one section.
pub fn weighing_decides()
    ensures { (sum : List Signed) (one other : Option (List ℕ)) → Weighs sum one → Weighs sum other
        → one ≡ other }
{}

/// The section that is answered for a sum is the one that it weighs in, and none is answered exactly where it weighs in
/// none.
pub fn a_sum_is_where_it_weighs()
    ensures { (sum : List Signed) (section : Option (List ℕ))
        → (relocation sum ≡ Some section) ↔ Weighs sum section }
{}

/// The number that digits of a base write is below the base raised to their number, and the number of characters is
/// below 256 raised to theirs: so a self-defining term of n bytes is below 2^(8n), since two hexadecimal or eight
/// binary digits, or one character, make a byte.
pub fn self_defining_terms_fit()
    ensures digits { (base : ℕ) (it : List ℕ) → is_number base it ≡ true
        → number_in base it < base ^ length it }
    ensures characters { (body : List ℕ) → character_number body < 256 ^ length (characters body) }
{}

/// The lowest of several faults is one of them, and none of them has a lower number; where none is answered there is
/// none.
#[tactic(auto, using(crate::proofs::LowestLemmas::lowest_is_lowest))]
pub fn the_lowest_fault_is_lowest()
    ensures { (faults : List (Option FaultKind)) → IsLowest faults (lowest faults) }
{}

/// A letter stands for a type of constant exactly where it is that type's letter.
#[tactic(auto, using(crate::proofs::KindLemmas::kind_by_letter))]
pub fn types_are_known_by_their_letters()
    ensures { (letter : ℕ) (kind : ConstantKind)
        → (kind_of letter ≡ Some kind) ↔ ((row_of_kind kind).letter ≡ letter) }
{}
