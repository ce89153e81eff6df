//! What follows from the definition of a prepared program.

ghost use Rattle.std.specs.Prelude.{◌≡◌, ◌≢◌, ℕ, List, Err, Bool, take};
ghost use Rattle.cx_asm_build.specs.Prepared.{prepared_of};
ghost use Rattle.cx_asm_build.specs.declared.faults.PrepareFault.TheVariants.{Memory};

/// Lack of memory is no fault of a source.
pub fn no_source_is_refused_for_memory()
    ensures { (listing disassembly : Bool) (all : List (List ℕ))
        → prepared_of listing disassembly all ≢ Err Memory }
{}

/// Lines after the 10,001st don't matter: a source that has not ended with the 10,000th is refused.
#[tactic(auto, using(crate::proofs::KeptLemmas::prepared_kept))]
pub fn lines_after_the_10001st_do_not_matter()
    ensures { (listing code : Bool) (all : List (List ℕ)) → let made = prepared_of listing code in
        made (take 10001 all) ≡ made all }
{}
