//! What holds of every half-turn.
ghost use Rattle.cx_region_task.specs.Laws.HalfTurns.{HalfTurnsDecide, HalfTurnsKeep, HalfTurnsStay, WaitsLeave};
ghost use Rattle.cx_region_task.specs.Laws.Decisions.{DecisionsDecide, WaitsAreDecided};
ghost use Rattle.cx_region_task.specs.Laws.AbendRecords.{AbendRecordsDecide, AbendRecordsExplain};

/// A half-turn has one outcome: a task and what it reaches (what all tasks share, and its terminal) determine the
/// reply, and the task and all that it reaches afterwards.
pub fn half_turns_decide()
    ensures { HalfTurnsDecide }
{
    cx_exec_laws::laws::runs_decide();
    cx_service::laws::a_shown_text_is_decided();
    cx_region_commands::laws::a_call_is_judged_once();
}

/// Where storage, programs, queues and the task are sound, a half-turn keeps its slot, the programs, and the areas and
/// resources of all other slots. Its task stays sound while it goes on, and where it has ended no area and no resource
/// of the slot is left.
pub fn half_turns_keep()
    ensures { HalfTurnsKeep }
{}

/// In every state, sound or not, a half-turn keeps its slot and the programs, and is answered neither Idle nor
/// NoSuchTerminal.
pub fn half_turns_stay()
    ensures { HalfTurnsStay }
{}

/// A half-turn that is answered Waiting leaves all as it is.
pub fn waits_leave()
    ensures { WaitsLeave }
{}

/// A task and what it reaches determine what is decided of the command that is due. A half-turn is answered Waiting
/// exactly where a command is due of which it is decided that it waits.
pub fn decisions_decide()
    ensures decide { DecisionsDecide }
    ensures wait { WaitsAreDecided }
{
    cx_region_commands::laws::a_call_is_judged_once();
}

/// A task and what it reaches before a half-turn determine the record of the abend to which the half-turn leads. There
/// is one exactly where the reply is an abend, whether an exit took it or the task ended; and the abend has the code
/// that the record's cause leads to.
pub fn abend_records_explain()
    ensures decide { AbendRecordsDecide }
    ensures explain { AbendRecordsExplain }
{
    cx_exec_laws::laws::runs_decide();
    cx_region_commands::laws::a_call_is_judged_once();
}
