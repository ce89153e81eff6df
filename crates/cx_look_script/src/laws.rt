//! What follows from the definitions of a script with looks.

ghost use Rattle.std.specs.Prelude.{IfOk};
ghost use Rattle.cx_look_script.specs.Allowed.{IsAllowedLook};
ghost use Rattle.cx_look_script.specs.Laws.Choices.{ChoicesAreReportedOnce};
ghost use Rattle.cx_look_script.specs.Laws.Covers.{CoverAddsUp};
ghost use Rattle.cx_look_script.specs.Laws.Looks.{ChoicesAreMarked, LooksAreMarked, LooksAreReportedOnce, LooksChangeNothing, OrdersAreMarked};
ghost use Rattle.cx_look_script.specs.Laws.Marks.{FaultsAreMarked};
ghost use Rattle.cx_look_script.specs.Laws.Notes.{NotesRefuseNothing, RefusalsAreWritten};
ghost use Rattle.cx_look_script.specs.Laws.Orders.{OrdersAreReportedOnce, ScriptsAskForEvents, ScriptsLeadThere};
ghost use Rattle.cx_look_script.specs.Laws.Outcomes.{HasOutcome, LookActionsDecide, LookInputsDecide, LookTranscriptsDecide, ScriptsNameTheirTerminals};
ghost use Rattle.cx_look_script.specs.Laws.Scripts.{ActionsStay, ScriptsStay};
ghost use Rattle.cx_look_script.specs.Laws.Turns.{RunsEndBeforeAbends, RunsEndBeforeLines, RunsTakeTurns, StopsDecide};
ghost use Rattle.cx_look_script.specs.Laws.Watches.{WatchedTextsDecide, WatchesChangeNothing, WatchesStay};

use crate::action::LookAction;
use crate::performer::LookedRegion;
use cx_edf::MakesDisplays;
use cx_script_actions::Performer;
use cx_storage::Store;
use std::alloc::{AllocError, Global};

/// A look changes nothing. Each run has for each of its actions a part, in which an action of `cicsedf` stands for
/// itself, RUN for as many TURNs as it did, and a look for nothing: the actions of all parts are a run of `cicsedf`
/// from the same state to the same state, and the text is the texts of that run, with each look's text, that of the
/// state there, at its place, and after each part the lines of the bytes that are watched and that it changed. The
/// lines of a source are kept after its part.
pub fn looks_change_nothing()
    ensures { LooksChangeNothing }
{}

/// The text of a look, and what is written for a block of ORDERS or of CHOICES, is lines that begin with `> `, each with one LF, at
/// its end.
pub fn looks_are_marked()
    ensures looks { LooksAreMarked }
    ensures orders { OrdersAreMarked }
    ensures choices { ChoicesAreMarked }
{}

/// The text of a look is a function of the state.
pub fn looks_are_reported_once()
    ensures { LooksAreReportedOnce }
{
    cx_look_tasks::laws::texts_decide();
    cx_look_ahead::laws::the_next_turn_is_shown();
    cx_look_ahead::laws::turns_reach_it();
}

/// Where no two terminals share a name, as in every sound region, what is written for a block of ORDERS is a function
/// of the state.
pub fn orders_are_reported_once()
    ensures { OrdersAreReportedOnce }
{
    cx_orders::laws::moves_decide();
    cx_region_laws::laws::calls_decide();
    cx_region_laws::laws::a_turn_keeps_to_its_task();
    cx_region_laws::laws::a_key_keeps_to_its_terminal();
    cx_search::laws::one_list_is_sooner();
}

/// What is written for a block of CHOICES is a function of the state.
pub fn choices_are_reported_once()
    ensures { ChoicesAreReportedOnce }
{
    cx_look_tasks::laws::texts_decide();
    cx_look_ahead::laws::the_next_turn_is_shown();
    cx_look_ahead::laws::turns_reach_it();
    cx_choices::laws::choices_decide();
    cx_search::laws::one_list_is_sooner();
}

/// The lines that ORDERS writes of steps, read as lines of a script, ask for EDF OFF of each terminal that has it on,
/// and then for the events that the steps are, one after another: a line `RUN` with a number for as many turns, and a
/// key's line for that key. So it is where a text spells each terminal's name, and the keys are those of lines.
pub fn scripts_ask_for_events()
    ensures { ScriptsAskForEvents }
{
    cx_ebcdic::laws::shown_as_itself();
    cx_look_steps::laws::scripts_ask_for_steps();
}

/// The actions of a RUN are turns of its terminal, one after another: up to one that isn't to be followed by one more
/// or in front of which RUN ends, or until there are as many as it may do; in these two cases its last line says so.
pub fn runs_take_turns()
    ensures { RunsTakeTurns }
{}

/// The lines that ORDERS writes of steps, done one after another in the place of ORDERS, lead to a state with the region
/// to which the steps lead, whatever is written for them. There screens show what they show of that region, and so
/// does each look at the region and the sources: of those that a block of ORDERS may have each but TERMINALS, which
/// shows EDF.
pub fn scripts_lead_there()
    ensures { ScriptsLeadThere }
{
    cx_ebcdic::laws::shown_as_itself();
    cx_look_steps::laws::scripts_ask_for_steps();
    cx_region_laws::laws::events_decide();
    cx_edf::laws::what_is_erased_changes_nothing();
    cx_edf::laws::sessions_keep_apart();
}

/// In a state in which a script may be each terminal's name has a spelling, that of its line TERMINAL, and no two
/// terminals share a name.
pub fn scripts_name_their_terminals()
    ensures { ScriptsNameTheirTerminals }
{
    cx_region_laws::laws::a_turn_keeps_to_its_task();
    cx_region_laws::laws::a_key_keeps_to_its_terminal();
    cx_region_laws::laws::an_alteration_keeps_to_its_task();
}

/// An action of a script with looks has one outcome: where no two terminals share a name, the state and the action
/// determine what is written, and the state afterwards.
pub fn an_action_has_one_outcome()
    ensures { LookActionsDecide }
{
    cx_look_abend::laws::noted_events_decide();
    cx_script::laws::an_action_has_one_outcome();
    runs_end_before_abends();
    looks_are_reported_once();
    orders_are_reported_once();
    choices_are_reported_once();
    watched_texts_decide();
    cx_exec_laws::laws::tallies_decide();
}

/// And it has one at all, wherever memory isn't refused: what an action that a script may ask does to a region that is
/// looked at, with what is written for it, is an outcome of the action in the state of before.
///
/// An error comes only where memory was refused.
pub fn an_action_has_an_outcome<S: Store + Drop, M: MakesDisplays>(
    alloc: Global,
    looked: &mut LookedRegion<S, M>,
    action: LookAction,
) -> Result<(), AllocError>
    requires { IsAllowedLook action }
    ensures { IfOk result (λ _. HasOutcome M.make looked.old action) }
{
    let _text = looked.perform(alloc, action)?;
    Ok(())
}

/// A list of actions has one outcome: where no two terminals share a name, the state and the list determine the
/// transcript, and the state afterwards. And what the reads give decides the answer of a run of `cicslook` and its
/// transcript, in whatever pieces they give it, unless lack of memory or the writer stops the run.
pub fn a_transcript_is_one()
    ensures transcripts { LookTranscriptsDecide }
    ensures inputs { LookInputsDecide }
{
    an_action_has_one_outcome();
    cx_region_laws::laws::a_turn_keeps_to_its_task();
    cx_region_laws::laws::a_key_keeps_to_its_terminal();
    cx_region_laws::laws::an_alteration_keeps_to_its_task();
}

/// A RUN BEFORE ABEND ends in front of a turn exactly where that turn, when it is done, is answered as an abend, and
/// its line names the code. Whether a RUN ends in front of a turn is a function of the state.
pub fn runs_end_before_abends()
    ensures ends { RunsEndBeforeAbends }
    ensures decides { StopsDecide }
{
    cx_region_laws::laws::calls_decide();
    cx_look_ahead::laws::turns_do_some();
}

/// A RUN TO a line of a program's source ends in front of a turn exactly where that turn, when it is done, does
/// something of the line: one of the instructions that it runs is there, or it performs the command that is due there.
/// So none of the turns that the RUN does is such a one. It does no turn where the line has no statement.
pub fn runs_end_before_lines()
    ensures { RunsEndBeforeLines }
{
    cx_look_ahead::laws::turns_do_some();
}

/// Whatever is watched, an action that is no WATCH does the same and writes the same for itself: WATCH changes nothing
/// of the region, of an abend that is kept or of what another look writes. Such an action leaves what is watched.
pub fn watches_change_nothing()
    ensures same { WatchesChangeNothing }
    ensures stay { WatchesStay }
{}

/// What is written of the bytes that are watched, with the statement that changed one of them last, is a function of
/// the states before and after.
pub fn watched_texts_decide()
    ensures { WatchedTextsDecide }
{
    cx_look_ahead::laws::writers_decide();
}

/// While COVER is on, actions add up: what COVERED tells of an address afterwards is what it told before, and the sum over
/// all passages of all turns that were done, of whatever terminal and by whatever line: one more for each at which the
/// instruction there was run, up to 2^64 - 1. From COVER ON on that is the sum alone. Counted are the passages from the
/// first turn on at which a program reached the address.
pub fn cover_adds_up()
    ensures { CoverAddsUp }
{
    cx_look_cover::laws::runs_add_up();
}

/// A script of `cicsedf` without a bad line is the same script here, and where nothing is watched its actions do and
/// write the same.
pub fn scripts_of_cicsedf_stay()
    ensures scripts { ScriptsStay }
    ensures actions { ActionsStay }
{}

/// Of a faulty line FAULTS writes, after the place and the fault, the line of the part that is at fault, as it is
/// shown, with `>>` and `<<` round that part: what stands between them is the part from the mark's column on, and
/// without them the line is as it was.
pub fn faults_are_marked()
    ensures { FaultsAreMarked }
{}

/// Of a source that is accepted FAULTS writes that none of its lines is faulty, whatever notes follow.
pub fn notes_refuse_nothing()
    ensures { NotesRefuseNothing }
{
    cx_look_faults::laws::what_a_source_is_refused_for_is_kept();
}

/// Of a source that is refused FAULTS writes a line for each faulty line, among them the one that the source is refused
/// for; so it writes that none is faulty exactly of a source that is accepted.
pub fn refusals_are_written()
    ensures { RefusalsAreWritten }
{
    cx_look_faults::laws::what_a_source_is_refused_for_is_kept();
}
