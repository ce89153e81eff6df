//! Laws of execution that the crate's own proofs hold: runs join; what is fetched; a dividend has one quotient; and
//! what strings and masks come to.

ghost use Rattle.cx_exec.specs.Laws.Fetch.{SpelledIsFetched};
ghost use Rattle.cx_exec.specs.Laws.Runs.{RunsJoin, StepsJoin};
ghost use Rattle.cx_exec.specs.Laws.Numbers.{DivisionIsOne};
ghost use Rattle.cx_exec.specs.Laws.Strings.{EachIsStored, OutsideIsMoved, OutsideIsJoined, AllIsTaken};

/// Steps that are done, and then a run, are one run, whose limit is the number of those steps and the run's limit.
#[tactic(auto, using(crate::proofs::RunLemmas::runs_join, crate::proofs::RunLemmas::steps_join))]
pub fn runs_join()
    ensures runs { RunsJoin }
    ensures steps { StepsJoin }
{}

/// An instruction that is spelled at an even address, all of its bytes present, is fetched, and read as itself.
pub fn spelled_is_fetched()
    ensures { SpelledIsFetched }
{
    cx_code::laws::first_bits();
    cx_code::laws::spelled_reads();
    cx_code::laws::length_read();
    cx_code::laws::read_before_rest();
    cx_code::laws::read_by_first_byte();
}

/// A dividend and a divisor have one quotient and one remainder.
pub fn division_is_one()
    ensures { DivisionIsOne }
{}

/// MVC and XC: where the first operand doesn't begin inside the second after its first byte, the second's bytes are
/// those that were there before. The second operand's bytes are there, of XC the first's too. Operands are at
/// addresses, and have at most 2^24 bytes.
#[tactic(auto, using(crate::proofs::BlockLemmas::outside_is_moved, crate::proofs::BlockLemmas::outside_is_joined))]
pub fn outside_is_before()
    ensures moved { OutsideIsMoved }
    ensures joined { OutsideIsJoined }
{}

/// Instructions that make a string byte by byte: as many bytes, one or more, are stored as are asked for, and each is
/// what the rule makes of those before it.
#[tactic(auto, using(crate::proofs::SequenceLemmas::each_is_stored))]
pub fn each_is_stored()
    ensures { EachIsStored }
{}

/// STCM: a mask of four ones takes the whole word, of a register below 2^32.
#[tactic(auto, unfolding(crate::specs::Masks::selected_bytes))]
pub fn all_is_taken()
    ensures { AllIsTaken }
{}
