//! What holds of the rows of all commands.
ghost use Rattle.cx_region_commands.specs.Laws.Rows.{JudgedOnce};

/// A call has one verdict: two verdicts on it in one state are equal.
pub fn a_call_is_judged_once()
    ensures { JudgedOnce }
{}
