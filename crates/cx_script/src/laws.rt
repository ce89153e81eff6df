//! What follows from the definitions of a script and its transcript.

ghost use Rattle.std.specs.Prelude.{◌≡◌, ℕ, List};
ghost use Rattle.std.specs.Str.Lines.{lines};
ghost use Rattle.cx_script_io.specs.Lines.{lines_met};
ghost use Rattle.cx_asm_execution.specs.Laws.Entry.{ReachesEntry};
ghost use Rattle.cx_asm_execution.specs.Arrival.{CommandsArrive};
ghost use Rattle.cx_edf.specs.State.{EdfState};
ghost use Rattle.cx_edf.specs.Steps.{DisplayMaker};
ghost use Rattle.cx_script_actions.specs.Effects.{Performs};
ghost use Rattle.cx_script.specs.Transcript.{PerformsAll};
ghost use Rattle.cx_script.specs.Laws.WholeScripts.{OkIsTheWholeScript};
ghost use Rattle.cx_script.specs.Laws.Fronts.{FrontsAreScripts};
ghost use Rattle.cx_script.specs.Laws.BadLines.{BadLinesAreBad};
ghost use Rattle.cx_script.specs.Laws.Events.{ScriptsRunTheirEvents};
ghost use Rattle.cx_script.specs.Laws.Inputs.{FailuresAreReported, InputsDecide, PastTheBoundIsReadBound, ReadBoundIsPastTheBound, ReadIsAFailure};
ghost use Rattle.cx_script.specs.Laws.KnownBytes.{AreCallsOver, KnownBytesAreRead, KnownBytesDecide};
ghost use Rattle.cx_script_actions.specs.declared.actions.Action.{Action};
ghost use Rattle.cx_script_blocks.specs.declared.faults.Summary.{Summary};
ghost use Rattle.cx_script_io.specs.declared.input.Ending.TheVariants.{AtEnd};

use crate::script::EdfPerformer;
use cx_edf::MakesDisplays;
use cx_script_actions::{Performer, ScriptAction};
use cx_script_io::ScriptDevices;

/// The lines of a script that is read to its end are those that the standard library cuts a text into: an LF
/// ends each, one CR before it is dropped, and bytes after the last LF are a line too.
pub fn lines_are_lines()
    ensures { (bytes : List ℕ) → lines_met AtEnd bytes ≡ lines bytes }
{}

/// Where a run answers Ok, the last read gave no byte: what the reads gave is a script without a fault, its lines are
/// counted, and the writes took its transcript, and nothing else.
pub fn ok_is_the_whole_script()
    ensures { OkIsTheWholeScript }
{}

/// What the reads give decides the answer and the transcript, in whatever pieces they give it, unless lack of memory or
/// the writer stops the run. ReadBound comes exactly where they give more than 16,777,216 bytes and there is no fault
/// in these; Read only where a read failed; and where one failed, the answer reports it, or the fault that is in front
/// of it.
pub fn the_input_decides()
    ensures decide { InputsDecide }
    ensures bound { ReadBoundIsPastTheBound }
    ensures bounded { PastTheBoundIsReadBound }
    ensures read { ReadIsAFailure }
    ensures reported { FailuresAreReported }
{
    an_action_has_one_outcome();
}

/// Where the bytes that a reader has are known and no read fails, what the reads give are the pieces of a script: of
/// these bytes, or of the first 16,777,216 where they are more.
pub fn known_bytes_are_read<P: Performer, D: ScriptDevices>()
    ensures { KnownBytesAreRead P.Action.language P.performs (AreCallsOver D.reads D.writes D.left) }
{
    cx_script_io::laws::calls_move_what_is_known::<D>();
}

/// Where the bytes that readers have are known, they decide the answer and the transcript, whatever the devices are,
/// unless lack of memory or the writer stops the run, or a read fails.
pub fn known_bytes_decide<M: MakesDisplays, D: ScriptDevices, E: ScriptDevices>()
    ensures { KnownBytesDecide M.make (AreCallsOver D.reads D.writes D.left) (AreCallsOver E.reads E.writes E.left) }
{
    the_input_decides();
    known_bytes_are_read::<EdfPerformer<M>, D>();
    known_bytes_are_read::<EdfPerformer<M>, E>();
}

/// A front of a script is a script: the actions that its complete lines give, and a fault met there, are those of the
/// whole, however the script goes on, and for whatever reason no more of it is read. So the pieces in which a script is
/// read don't matter.
pub fn fronts_are_scripts<A: ScriptAction>()
    ensures { FrontsAreScripts A.language }
{}

/// A line that is reported as BadLine is one of the script's: bad at its place, or the beginning of a block that the
/// script's end leaves open. No line in front of it is bad, and exactly what these complete is done.
pub fn bad_lines_are_bad<A: ScriptAction>()
    ensures { BadLinesAreBad A.language }
{}

/// An action on a region under EDF has one outcome: the state and the action determine what is written, and the state
/// afterwards.
pub fn an_action_has_one_outcome()
    ensures { (make : DisplayMaker) (old : EdfState) (action : Action) (text other : List ℕ) (new another : EdfState)
        → Performs make old action text new → Performs make old action other another
        → (text ≡ other) × (new ≡ another) }
{
    cx_edf::laws::edf_events_decide();
}

/// A list of actions on a region under EDF has one outcome: the state and the list determine the transcript, and the
/// state afterwards.
pub fn a_transcript_is_one()
    ensures { (make : DisplayMaker) (old : EdfState) (actions : List Action) (text other : List ℕ)
        (new another : EdfState)
        → PerformsAll (Performs make) old actions text new → PerformsAll (Performs make) old actions other another
        → (text ≡ other) × (new ≡ another) }
{
    an_action_has_one_outcome();
}

/// A run of a script's actions is a run of its events under EDF: the state after it is that after the events that the
/// actions give, in order, and each answer is the one that was written.
#[tactic(auto, using(crate::proofs::ActionLemmas::scripts_run_their_events))]
pub fn a_script_runs_its_events()
    ensures { ScriptsRunTheirEvents }
{}

/// The instructions made of an EXEC statement lead to the entry, with the argument list that is read as the statement's
/// command, and the addresses that its arguments had at the first instruction.
pub fn reaches_entry()
    ensures { ReachesEntry }
{
    cx_asm_execution::laws::reaches_entry();
}

/// Each EXEC statement of a source that is translated, assembled and loaded arrives as its command: these instructions
/// are those made of it, each argument's address is that of its expression, and a machine that is about to perform them
/// reaches the entry.
pub fn commands_arrive()
    ensures { CommandsArrive }
{
    cx_asm_execution::laws::commands_arrive();
}
