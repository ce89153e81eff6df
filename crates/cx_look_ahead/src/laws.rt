//! What follows from the definitions of looks ahead and of watched ranges.

ghost use Rattle.cx_look_ahead.specs.Laws.{AheadDecides, NamesAreOfWhere, NextTurnIsShown, RowsAreTheDifference, RowsDecide};
ghost use Rattle.cx_look_ahead.specs.Laws.Arrivals.{ArrivalsDecide, TurnsDoSome};
ghost use Rattle.cx_look_ahead.specs.Laws.Watching.{WorkIsDone, ChangesAreWritten, ChangesDecide, WritersAreFound, WritersDecide};
ghost use Rattle.cx_look_ahead.specs.Laws.Afters.{AfterDecides};
ghost use Rattle.cx_look_ahead.specs.Laws.Ats.{AtDecides, TurnsReachIt};

/// What AHEAD writes is that of the region's next turn, when it is done: the words of its reply, its instructions, and
/// the rows of bytes that it changes. There is one such text.
pub fn the_next_turn_is_shown()
    ensures shown { NextTurnIsShown }
    ensures decides { AheadDecides }
{
    cx_region_laws::laws::calls_decide();
    cx_look_turn::laws::traces_decide();
}

/// Of the rows between two storages a byte is in one exactly where it differs, and there is one list of them.
pub fn rows_are_the_difference()
    ensures difference { RowsAreTheDifference }
    ensures decides { RowsDecide }
{}

/// The field that AHEAD names at a row of bytes is the one of which WHERE writes a line, at the row's first byte, for
/// the current level of the terminal's task.
pub fn rows_are_named_as_where()
    ensures { NamesAreOfWhere }
{}

/// The next turn comes to a line exactly where the turn, when it is done, does something of it: one of the instructions
/// of its run is on the line, or the command that it performs. Whether it does is a function of the state.
pub fn turns_do_some()
    ensures done { TurnsDoSome }
    ensures decides { ArrivalsDecide }
{
    cx_look_turn::laws::turns_run_them();
    cx_look_turn::laws::traces_decide();
}

/// What AHEAD AT shows is the machine of the run of the turn that is then done, after as many of its instructions as
/// come before the first one on the line. There is one such text, and one of AHEAD AFTER, whose machine the turn comes to
/// by a law of the crate below.
pub fn turns_reach_it()
    ensures reached { TurnsReachIt }
    ensures decides { AtDecides }
    ensures after { AfterDecides }
{
    cx_look_turn::laws::turns_go_on_from();
    cx_look_turn::laws::turns_run_them();
    cx_look_turn::laws::traces_decide();
    cx_exec_laws::laws::steps_decide();
}

/// A watched range has a line exactly where one of its bytes differs; a byte that only one of the two storages has
/// differs.
pub fn changes_are_written()
    ensures { ChangesAreWritten }
{}

/// There is one instruction of a run that changed a byte of a range last, and so one text of what is watched; and where
/// there is none, the run left each byte of the range as it was.
pub fn writers_decide()
    ensures writers { WritersDecide }
    ensures changes { ChangesDecide }
    ensures found { WritersAreFound }
{
    cx_exec_laws::laws::steps_decide();
    cx_exec_laws::laws::runs_decide();
}

/// What a turn is taken to do for WATCH is what the region's turn does: it performs the command of the terminal's task,
/// which leads back to the address in register 14, or its run begins at that machine. Without a task it changes
/// nothing.
pub fn work_is_done()
    ensures { WorkIsDone }
{}
