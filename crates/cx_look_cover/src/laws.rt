//! What follows from the definitions of what was run.
ghost use Rattle.cx_look_cover.specs.Laws.{BranchesAreOfTable, PassagesAreVisits, ProgramsAreReached, RangesName, RunsAddUp, TalliesCount, TargetsAreOfExecutes};

use cx_code::laws::{one_row, read_by_first_byte};
use cx_exec_laws::laws::{passages_decide, steps_decide};

/// The passages of a run are at the instructions that it comes to, in their order: so each count is a number of these.
pub fn passages_are_visits()
    ensures { PassagesAreVisits }
{
    steps_decide();
}

/// The address that is counted as that of a target is the second operand's of an EX, where the next instruction reads
/// as one.
pub fn targets_are_of_executes()
    ensures { TargetsAreOfExecutes }
{
    read_by_first_byte();
}

/// What is looked at as a conditional branch reads as BC or BCR with a mask that some condition codes meet and others
/// don't, as BCT or as BCTR; the last and BCR with a second register that isn't 0.
pub fn branches_are_of_table()
    ensures { BranchesAreOfTable }
{
    one_row();
    read_by_first_byte();
}

/// After a run the runs of each address that the tallies reach are those before it and one for each time that a passage
/// runs the instruction there, up to 2^64 - 1; and likewise those after which the machine went elsewhere.
pub fn tallies_count()
    ensures { TalliesCount }
{
    passages_decide();
}

/// After several runs, counted one after another, the runs of each address are those before them and one for each time
/// that a passage of these runs runs the instruction there, up to 2^64 - 1; and likewise those after which the machine
/// went elsewhere. Counted are the passages of each run from the first one on at which a program reached the address.
pub fn runs_add_up()
    ensures { RunsAddUp }
{}

/// Tallies that reach the end of the programs reach each address of each of them.
pub fn programs_are_reached()
    ensures { ProgramsAreReached }
{}

/// Ranges of lines name exactly the lines that they are made of, in their order, and none goes on where the one in
/// front of it ends.
pub fn ranges_name()
    ensures { RangesName }
{}
