//! Laws of execution: a step and a run are decided by the machine before them, and so is what is counted and noted of a
//! run; they leave the areas of storage; every instruction has a row; what an interruption leaves; and what the
//! definitions of numbers, shifts, registers, strings and decimal numbers come to.

ghost use Rattle.std.specs.Prelude.{ℕ};
ghost use Rattle.cx_exec.specs.Step.{Steps};
ghost use Rattle.cx_exec.specs.Advance.{Advances};
ghost use Rattle.cx_exec_laws.specs.Laws.Decide.{StepsDecide, RunsDecide};
ghost use Rattle.cx_exec_laws.specs.Laws.Areas.{RunsKeepAreas};
ghost use Rattle.cx_exec_laws.specs.Laws.Passages.{PassagesDecide, TalliesDecide, WatchesDecide};
ghost use Rattle.cx_exec_laws.specs.Laws.Rows.{EveryRowIsThere};
ghost use Rattle.cx_exec_laws.specs.Laws.Interruptions.{InterruptionsLeave, InterruptionsKeep};
ghost use Rattle.cx_exec_laws.specs.Laws.Numbers.{ResultIsExact, ProductIsExact, ShiftedIsFloor, ShiftedIsExact, StoredWords, LoadedWords};
ghost use Rattle.cx_exec_laws.specs.Laws.Strings.{DecimalReadsBack, ApartIsCopied};

use cx_exec::Watcher;

/// The step's answer and the machine after it are determined by the machine before.
pub fn steps_decide()
    ensures { StepsDecide Steps }
{
    cx_exec::laws::division_is_one();
}

/// The halt and the machine after it are determined by the machine before and the limit.
pub fn runs_decide()
    ensures { (limit : ℕ) → RunsDecide (Advances limit) }
{
    cx_exec::laws::division_is_one();
}

/// A machine and a limit have one list of passages.
pub fn passages_decide()
    ensures { PassagesDecide }
{
    steps_decide();
}

/// A machine, a limit and the tallies before have one list of tallies after the run.
pub fn tallies_decide()
    ensures { TalliesDecide }
{
    passages_decide();
}

/// A machine, a limit and what a watcher holds before have one outcome of what it holds after the run.
pub fn watches_decide<W: Watcher>()
    ensures { WatchesDecide W.noted }
{
    passages_decide();
}

/// No instruction makes, frees or moves an area: after a run the areas of storage are those before.
pub fn runs_keep_areas()
    ensures { RunsKeepAreas }
{}

/// Every well-formed instruction except EX has a row: its effect is never the interruption operation.
#[tactic(auto, using(crate::proofs::InterruptLemmas::every_row_is_there))]
pub fn every_row_is_there()
    ensures { EveryRowIsThere }
{}

/// An interruption leaves registers, code, next address and storage as before, except the register R1 of a CVB that
/// is interrupted by 9.
#[tactic(auto, using(crate::proofs::InterruptLemmas::interruptions_leave, crate::proofs::InterruptLemmas::interruptions_keep))]
pub fn interruptions_leave()
    ensures left { InterruptionsLeave }
    ensures kept { InterruptionsKeep }
{}

/// A result that a word holds is read from its word again.
#[tactic(auto, using(crate::proofs::LawLemmas::result_is_exact))]
pub fn result_is_exact()
    ensures { ResultIsExact }
{}

/// The pair that a multiplication leaves is read as the exact product. The pair is among the registers, and the factors
/// are below 2^32.
#[tactic(auto, using(crate::proofs::LawLemmas::product_is_exact))]
pub fn product_is_exact()
    ensures { ProductIsExact }
{}

/// A number shifted right by n bits is the greatest whole number not above it divided by 2^n.
pub fn shifted_is_floor()
    ensures { ShiftedIsFloor }
{}

/// A word (below 2^32) shifted left holds its exact number, where a word holds that.
#[tactic(auto, using(crate::proofs::LawLemmas::shifted_is_exact))]
pub fn shifted_is_exact()
    ensures { ShiftedIsExact }
{}

/// STM: the word at place k is that of the register k places after the first one, 0 following 15.
#[tactic(auto, using(crate::proofs::LawLemmas::stored_words))]
pub fn stored_words()
    ensures { StoredWords }
{}

/// LM: the register k places after the first one is loaded from the word at the place 4k on. The first register is
/// below 16, and the words are there.
#[tactic(auto, using(crate::proofs::LawLemmas::loaded_words))]
pub fn loaded_words()
    ensures { LoadedWords }
{}

/// CVD and CVB: what is written of a number of less than 10^15 in size is read as that number.
pub fn decimal_reads_back()
    ensures { DecimalReadsBack }
{}

/// MVC: a second operand that has no byte of the first is copied. Both are there, at addresses, with at most 2^24
/// bytes.
pub fn apart_is_copied()
    ensures { ApartIsCopied }
{
    cx_exec::laws::outside_is_before();
}
