//! What follows from the definitions of looks at tables.

ghost use Rattle.cx_look_tables.specs.Laws.{StoppedTerminalsAreShown};

/// TERMINALS shows a terminal as STOPPED exactly where EDF has stopped it.
pub fn stopped_terminals_are_shown()
    ensures { StoppedTerminalsAreShown }
{}
