//! What holds of the steps that lead to a state, and of their lines.

ghost use Rattle.cx_look_steps.specs.Laws.{ScriptsAskForSteps, StepsAreRuns};

use cx_region_laws::laws::{a_key_keeps_to_its_terminal, a_turn_keeps_to_its_task};

/// Steps lead a region where the run of their turns and keys leads it, without EDF.
pub fn steps_are_runs()
    ensures { StepsAreRuns }
{
    a_turn_keeps_to_its_task();
    a_key_keeps_to_its_terminal();
}

/// The lines that are written of steps ask for these, one after another: each line for a key, or for 1 to 4,096 turns in
/// a row, of which comment lines behind it tell.
pub fn scripts_ask_for_steps()
    ensures { ScriptsAskForSteps }
{}
