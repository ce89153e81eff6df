//! What holds of keys that an operator presses.
ghost use Rattle.cx_choices.specs.Laws.{ChoicesAreRuns, MovesComeToRest, MovesDecide, PassagesDecide, SettlingDecides};

use cx_region_laws::laws::calls_decide;

/// Of one region, what settles it is one list of turns, and leads to one region; one key that is pressed there has one
/// passage; and a move leads to one state at most.
pub fn choices_decide()
    ensures settling { SettlingDecides }
    ensures passages { PassagesDecide }
    ensures moves { MovesDecide }
{
    calls_decide();
}

/// A move leaves the region at rest, or 4,096 turns were made.
pub fn moves_come_to_rest()
    ensures { MovesComeToRest }
{}

/// Where, without one number, a list of moves leads from a state to a state, a run of turns and keys leads the region
/// of the one to that of the other; its keys are those of the moves, in their order.
pub fn choices_are_runs()
    ensures { ChoicesAreRuns }
{}
