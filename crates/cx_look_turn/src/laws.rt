//! What follows from the definitions of a turn's machine and of the instructions that it comes to.

ghost use Rattle.cx_look_turn.specs.Laws.{MachinesAfterDecide, TracesDecide, TurnsGoOnFrom, TurnsLeaveRuns, TurnsRunThem, VisitsAreOfRuns};

/// A machine and a limit have one trace: one number of instructions that the run comes to, and one list of the last of
/// them.
pub fn traces_decide()
    ensures { TracesDecide }
{
    cx_exec_laws::laws::steps_decide();
}

/// The instructions that a machine comes to are those of its run: as many as the run performs, and the one that is
/// interrupted, where it ends so; each is that at the machine after as many steps as come before it.
pub fn visits_are_of_runs()
    ensures { VisitsAreOfRuns }
{
    cx_exec_laws::laws::runs_decide();
}

/// The instructions that a terminal's next turn is said to come to are those of the turn's run, when it is done: as
/// many as the run performs, and the one that is interrupted, where it ends so; each is that at the machine after as
/// many steps as come before it.
pub fn turns_run_them()
    ensures { TurnsRunThem }
{
    crate::laws::visits_are_of_runs();
}

/// A turn that runs instructions, and isn't answered as an abend, leaves storage as the instructions leave it.
pub fn turns_leave_runs()
    ensures { TurnsLeaveRuns }
{
    cx_exec_laws::laws::runs_decide();
    cx_region_task::laws::abend_records_explain();
}

/// There is one machine after so many instructions of a terminal's next turn, or none; and the turn, when it is done,
/// comes to that machine after so many instructions, and the rest of its run goes on from there.
pub fn turns_go_on_from()
    ensures decide { MachinesAfterDecide }
    ensures go_on { TurnsGoOnFrom }
{
    cx_exec_laws::laws::steps_decide();
}
