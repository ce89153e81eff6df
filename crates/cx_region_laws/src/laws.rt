//! What holds of every half-turn, of every event, and of every run of events.
ghost use Rattle.cx_region_laws.specs.Laws.Alterations.{AbendsKeepOthers, AbendsLookAtNoExit, AbendsOfTasksAreDone, AlterationsDecide, AlterationsKeepLevels, AlterationsKeepStorage, AlterationsKeepToTheirTask, RefusedAlterationsLeaveTheRegion};
ghost use Rattle.cx_region_laws.specs.Laws.Bytes.{CommandsLeaveOthers};
ghost use Rattle.cx_region_laws.specs.Laws.Commareas.{AttachedCalenIsTheLevels, AttachedFindCommareas, EnteredFindCommareas};
ghost use Rattle.cx_region_laws.specs.Laws.Exits.{CancelTakesNoExit, ExitsAreNearest, ExitsTakeAbends, HalfTurnsTakeExits};
ghost use Rattle.cx_region_laws.specs.Laws.Levels.{CommandsAreKept, DueIsKept, HalfTurnsLeaveCallers, LinksAreReturned, PopsRestore, ReturnsHaveCallers};
ghost use Rattle.cx_region_laws.specs.Laws.Memory.{RefusedEventsAreNone, StoppedRunsGoOn};
ghost use Rattle.cx_region_laws.specs.Laws.Outcomes.{AdvancesHaveOutcomes, EventListsAreRuns, EventsHaveOutcomes, HalfTurnsHaveEnds, StepsHaveOutcomes};
ghost use Rattle.cx_region_laws.specs.Laws.Pointers.{OutputsStay, ProgramsGoOn};
ghost use Rattle.cx_region_laws.specs.Laws.Reports.{CalenIsTheLevels, CommandsReport, ExitsFindReports};
ghost use Rattle.cx_region_laws.specs.Laws.Regions.{ProgramsDecide, TransactionsDecide, TerminalsDecide, TurnsDecide, AreAsMany, EventsDecide, KeysDecide, KeysKeepToTheirTerminal, RefusedProgramsLeaveTheRegion, RefusedTerminalsLeaveTheRegion, RefusedTransactionsLeaveTheRegion, RegionRunsDecide, RegionRunsJoin, RunsPart, StillKeysLeaveTheRegion, StillTurnsLeaveTheRegion, TurnsKeepOthers, TurnsKeepToTheirTask};
ghost use Rattle.cx_region_laws.specs.Laws.Sound.{SoundIsKept};
ghost use Rattle.cx_region_laws.specs.Laws.TaskMemory.{OnlyTheseTakeMemory};

/// A command leaves the areas of all other slots, and of the region itself. Each of their bytes stays, unless an output
/// of the command, or RESP's word, has its address. The task is sound, in sound storage with sound programs and queues,
/// and the command is due.
pub fn commands_leave_others()
    ensures { CommandsLeaveOthers }
{
    cx_region_state::laws::call_is_read();
}

/// Where a program goes on after its command, it does so at the address in R14, with the registers and the code that it
/// had. Of a sound task each byte of the command's outputs is at its place then, unless an output after it, the EIB or
/// RESP's word has its address. So a pointer that GETMAIN or READQ TS gives its SET, or ADDRESS its CWA, is the word at
/// its place, where none of these has one of its four addresses.
pub fn a_pointer_stays()
    ensures program { ProgramsGoOn }
    ensures outputs { OutputsStay }
{
    cx_region_state::laws::call_is_read();
}

/// A command that is performed reports itself: EIBFN is its function value, EIBRCODE and EIBRESP have the number of the
/// condition that it met, EIBRSRCE the name at PROGRAM or QUEUE, and RESP's word the number, as far as it is in storage
/// afterwards. Without a PROGRAM or QUEUE EIBRSRCE stays, unless an output lies over the EIB. A level that begins, and
/// one that is returned to, is reported with NORMAL, and after RETURN EIBFN is LINK's. Where an exit takes a command's
/// abend the program finds the report of the condition, or, where the command was refused, the report before it. The
/// task is sound, and RESP's word doesn't lie over the EIB; performed are those that are answered Performed, TookLabel,
/// Entered or Returned.
pub fn a_command_reports_itself()
    ensures performed { CommandsReport }
    ensures exits { ExitsFindReports }
{
    cx_region_state::laws::call_is_read();
    cx_region_task::laws::half_turns_keep();
}

/// Where a level begins, by LINK, by XCTL or by a key, is returned to, or takes an abend, EIBCALEN is the length of its
/// COMMAREA. The task, or the region of the key, is sound, and RESP's word doesn't lie over the EIB.
pub fn eibcalen_is_the_current_levels()
    ensures turned { CalenIsTheLevels }
    ensures attached { AttachedCalenIsTheLevels }
{
    cx_region_state::laws::call_is_read();
    cx_region_task::laws::half_turns_keep();
}

/// A program that is entered finds the COMMAREA that is passed to it: EIBCALEN says how many bytes it has, DFHEICAP has
/// its address, or 0 where it has no bytes, and the bytes are those that the command found. XCTL passes a copy. The
/// task, or the region of the key, is sound, and RESP's word doesn't lie over the EIB; the COMMAREA of a LINK is in
/// storage, and neither the EIB nor RESP's word lies over it.
pub fn an_entered_program_finds_its_commarea()
    ensures entered { EnteredFindCommareas }
    ensures attached { AttachedFindCommareas }
{
    cx_region_state::laws::call_is_read();
    cx_region_task::laws::half_turns_keep();
}

/// An abend's exit is the nearest that is on, and it is off then: the next abend goes to one above it. The levels below
/// the exit's have ended, and their areas are freed. The program goes on at the exit's label with the registers that
/// the level kept, R15 the label, and EIBCALEN is the level's; every other byte stays. Where an exit is on an abend
/// goes to one, unless it is asked for with CANCEL. A half-turn comes to an abend that an exit takes with its task's
/// levels as they were: by its instructions, at a command that is refused, or after what its command has done.
pub fn the_nearest_exit_takes_an_abend()
    ensures nearest { ExitsAreNearest }
    ensures half_turn { HalfTurnsTakeExits }
    ensures taken { ExitsTakeAbends }
    ensures cancel { CancelTakesNoExit }
{}

/// A half-turn leaves each level above the current one as it is: registers, code, handles and exit. A level that begins
/// has asked for nothing, and its program is at its entry, with the registers that an entry has. Where a half-turn
/// comes to a command the current level keeps the program's registers and code, and it keeps them as long as the
/// command is due.
#[tactic(auto, using(crate::proofs::CallerLemmas::half_turns_leave_callers))]
pub fn half_turns_leave_callers()
    ensures callers { HalfTurnsLeaveCallers }
    ensures current { CommandsAreKept }
    ensures due { DueIsKept }
{}

/// A LINK and the RETURN from it, whatever is done between them, leave the linking level's registers, code, handles and
/// exit, and all levels above it. So they do where an operator alters the task between them. What comes between
/// half-turns must leave the callers.
pub fn a_link_is_returned_from()
    ensures { LinksAreReturned }
{}

/// PUSH HANDLE and the POP HANDLE that takes it back leave the handles as they were, whatever is asked for between
/// them, also by other PUSHes with their POPs.
#[tactic(auto, using(crate::proofs::RunLemmas::pops_restore))]
pub fn pop_restores_what_push_kept()
    ensures { PopsRestore }
{}

/// A half-turn that may take memory is one of a command that is due: GETMAIN, READQ TS with SET, WRITEQ TS, ENQ, LINK,
/// XCTL, or RETURN with bytes in its COMMAREA. So none that runs instructions takes any, and none of another command.
#[tactic(auto, using(crate::proofs::TaskMemoryLemmas::only_these_take_memory))]
pub fn only_these_take_memory()
    ensures { OnlyTheseTakeMemory }
{}

/// A half-turn is answered Returned only where the current level has one above it, which linked to it.
pub fn a_return_has_a_caller()
    ensures { ReturnsHaveCallers }
{}

/// An event of a region has one outcome: the region and the event determine the reply, and the region afterwards.
pub fn events_decide()
    ensures { EventsDecide }
{
    cx_load::laws::loading_decides();
    cx_region_task::laws::half_turns_decide();
}

/// Each call of a region has one outcome: the region and what the call is given determine its answer, and the region
/// afterwards.
pub fn calls_decide()
    ensures programs { ProgramsDecide }
    ensures transactions { TransactionsDecide }
    ensures terminals { TerminalsDecide }
    ensures keys { KeysDecide }
    ensures turns { TurnsDecide }
    ensures alterations { AlterationsDecide }
{
    cx_load::laws::loading_decides();
    cx_region_task::laws::half_turns_decide();
}

/// A list of events has one outcome: the region and the list determine the replies, and the region afterwards.
pub fn runs_decide()
    ensures { RegionRunsDecide }
{
    events_decide();
}

/// A turn changes no terminal except its own, so no other task's registers, levels or due command; and no definition,
/// nor the clock, nor the counter of tasks. In a sound region the areas of other tasks and of the region, and the
/// resources of other tasks, are the same afterwards: none is gone, and none is new.
pub fn a_turn_keeps_to_its_task()
    ensures task { TurnsKeepToTheirTask }
    ensures others { TurnsKeepOthers }
{
    cx_region_task::laws::half_turns_stay();
    cx_region_task::laws::half_turns_keep();
}

/// An alteration changes no terminal but its own, and no definition or queue, nor the clock, nor the counter of tasks.
/// Where the task goes on it changes no area and no resource, and one byte at most. Where it ends the task it leaves
/// the areas of all others, with their bytes, and their resources. It leaves the task's levels above the current one.
/// Where a command is due and the current level keeps the registers and the code of its program, it still keeps them
/// afterwards.
#[tactic(auto, using(crate::proofs::AlterLemmas::alterations_keep, crate::proofs::AlterLemmas::alterations_keep_storage, crate::proofs::AlterLemmas::abends_keep_others, crate::proofs::AlterLemmas::alterations_keep_levels))]
pub fn an_alteration_keeps_to_its_task()
    ensures task { AlterationsKeepToTheirTask }
    ensures storage { AlterationsKeepStorage }
    ensures others { AbendsKeepOthers }
    ensures levels { AlterationsKeepLevels }
{}

/// An alteration that is refused leaves the region as it was.
#[tactic(auto, using(crate::specs::Facts::Alterations::refused_alterations_leave))]
pub fn refused_alterations_leave_the_region()
    ensures { RefusedAlterationsLeaveTheRegion }
{}

/// The abend of a task that is there is always done, and is the one that ABEND with CANCEL has, with the code XEDF: no
/// exit is looked at.
#[tactic(auto, using(crate::specs::Facts::Alterations::abends_are_done))]
pub fn an_operators_abend_is_taken_by_no_exit()
    ensures done { AbendsOfTasksAreDone }
    ensures exits { AbendsLookAtNoExit }
{}

/// A key changes no terminal but its own, and no definition, queue or resource, nor the clock. Storage and the counter
/// of tasks change only where it attaches a task: the counter goes to the next number.
#[tactic(auto, using(crate::proofs::KeepsLemmas::keyed_keeps))]
pub fn a_key_keeps_to_its_terminal()
    ensures { KeysKeepToTheirTerminal }
{}

/// A turn answered Idle, NoSuchTerminal or Waiting leaves the region as it was.
pub fn waiting_leaves_the_region()
    ensures { StillTurnsLeaveTheRegion }
{
    cx_region_task::laws::half_turns_stay();
    cx_region_task::laws::waits_leave();
}

/// A key's answer other than Attached and Given leaves the region as it was.
#[tactic(auto, using(crate::proofs::KeepsLemmas::still_keys_leave))]
pub fn only_attached_and_given_change()
    ensures { StillKeysLeaveTheRegion }
{}

/// A definition that is refused leaves the region as it was.
#[tactic(auto, using(crate::proofs::KeepsLemmas::refused_programs_leave, crate::proofs::KeepsLemmas::refused_transactions_leave, crate::proofs::KeepsLemmas::refused_terminals_leave))]
pub fn refused_definitions_leave_the_region()
    ensures programs { RefusedProgramsLeaveTheRegion }
    ensures transactions { RefusedTransactionsLeaveTheRegion }
    ensures terminals { RefusedTerminalsLeaveTheRegion }
{}

/// Runs of events one after another are one run, a run is cut at any place into two, and it has as many replies as
/// events.
#[tactic(auto, using(crate::proofs::RunLawLemmas::runs_join, crate::proofs::RunLawLemmas::runs_part, crate::proofs::RunLawLemmas::are_as_many))]
pub fn runs_join()
    ensures join { RegionRunsJoin }
    ensures part { RunsPart }
    ensures count { AreAsMany }
{}

/// An event that was refused memory is none: the next one is done as if it had never come, with the answer that it
/// would have had. A list that ran out of memory, and goes on with the events that weren't done, is the run of the
/// whole.
#[tactic(auto, using(crate::proofs::MemoryLemmas::stopped_runs_go_on))]
pub fn a_refused_event_is_none()
    ensures event { RefusedEventsAreNone }
    ensures run { StoppedRunsGoOn }
{
    events_decide();
}

/// Over the definitions alone, in every state and whatever memory there is: from each machine there is a step, and a
/// run of at most 65,536 of them; each half-turn has an end, each event an outcome, and each list of events, images
/// checked, is a run.
#[tactic(auto, using(crate::proofs::StepOutcomeLemmas::steps_have_outcomes, crate::proofs::StepOutcomeLemmas::advances_have_outcomes))]
pub fn each_event_has_an_outcome()
    ensures steps { StepsHaveOutcomes }
    ensures advances { AdvancesHaveOutcomes }
    ensures turns { HalfTurnsHaveEnds }
    ensures events { EventsHaveOutcomes }
    ensures runs { EventListsAreRuns }
{
    cx_load::laws::relocation();
    cx_service::laws::every_text_has_lines();
}

/// An event of a sound region leads to a sound one, over the definitions of events alone: areas of live tasks, owners,
/// names, limits, the clock and the counter. It is a premise that storage, queues and resources are sound afterwards by
/// themselves, as the calls of these keep them.
pub fn sound_is_kept()
    ensures { SoundIsKept }
{
    cx_region_task::laws::half_turns_keep();
}
