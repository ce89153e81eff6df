//! What follows from the definitions of a source's faulty lines, and of the parts that are marked.

ghost use Rattle.std.specs.Prelude.{ℕ, List, Bool};
ghost use Rattle.std.specs.Result.{result_err};
ghost use Rattle.cx_asm_build.specs.Prepared.{prepared_of};
ghost use Rattle.cx_look_faults.specs.Faults.{faults_of};
ghost use Rattle.cx_look_faults.specs.Kept.{kept_faults};
ghost use Rattle.cx_look_faults.specs.Laws.First.{IsAmong};
ghost use Rattle.cx_look_faults.specs.Laws.Marks.{ConstantsAreCauses, PartsAreCauses};

/// The fault for which `cx_asm_build::prepare` refuses a source is that of one of its faulty lines; a source that isn't
/// refused has no faulty line.
#[tactic(auto, using(crate::proofs::FirstLemmas::is_among))]
pub fn what_a_source_is_refused_for_is_among_them()
    ensures { (listing disassembly : Bool) (all : List (List ℕ))
        → IsAmong (result_err (prepared_of listing disassembly all)) (faults_of all) }
{}

/// The line of that fault is one of the first 10,001; so a source isn't refused exactly where none of these lines is
/// faulty.
#[tactic(auto, using(crate::proofs::KeptLemmas::is_among_kept))]
pub fn what_a_source_is_refused_for_is_kept()
    ensures { (listing disassembly : Bool) (all : List (List ℕ))
        → IsAmong (result_err (prepared_of listing disassembly all)) (kept_faults all) }
{}

/// What is marked of an operand has the fault by itself: with 0 in place of all other parts the statement has it, and
/// with 0 in its own place too it hasn't. The exceptions: all of an operand, which has it; a literal that no base
/// reaches, and an EQU's symbol that isn't known yet. Of a DC or DS it is a term or an item that has it.
#[tactic(auto, using(crate::proofs::CauseLemmas::parts_are_causes, crate::proofs::CauseLemmas::constants_are_causes))]
pub fn a_marked_part_has_the_fault_by_itself()
    ensures parts { PartsAreCauses }
    ensures constants { ConstantsAreCauses }
{}
