//! What follows from the definitions.
ghost use Rattle.cx_script_actions.specs.Laws.Displays.{DisplayIsTheSessions, PreviousIsTheSessions};

/// What DISPLAY writes is determined by the terminal's session alone, be it the shown page or an earlier display: by
/// what was kept at the stop, whatever the region does after it.
#[tactic(auto, using(crate::proofs::DisplayLemmas::display_is_the_sessions, crate::proofs::DisplayLemmas::previous_is_the_sessions))]
pub fn display_is_the_sessions()
    ensures shown { DisplayIsTheSessions }
    ensures earlier { PreviousIsTheSessions }
{}
