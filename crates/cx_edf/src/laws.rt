//! What holds of every event under EDF, and of every run of them.
ghost use Rattle.cx_edf.specs.Laws.Displays.{LastDisplaysAreKept};
ghost use Rattle.cx_edf.specs.Laws.Edf.{EdfEventsDecide, EdfRunsDecide, ErasedEvents, ErasedEventsLeaveTheRegion, EventsAreSteps, FrontsAreTraces, OffIsTheRegion, OtherEventsArePassed, OtherSessionsStay, OwnEventsHaveOwnAnswers, PlainRunsAgree, SessionsAreSet, StopsAreMissedUnderSuppression, ReportedAreThoseGiven, TheRegionIsOff, WhatIsLeftIsARun};
ghost use Rattle.cx_edf.specs.Laws.Memory.{EdfSoundIsKept, RefusedEdfEventsAreNone, StoppedEdfRunsGoOn};
ghost use Rattle.cx_edf.specs.Laws.Outcomes.{EdfEventListsAreRuns, EdfEventsHaveOutcomes};
ghost use Rattle.cx_edf.specs.Laws.Watched.{RunsCanBeWatched};

/// Events done one at a time are a run, with the states that they left. Such an event is what each call of a region
/// under EDF ensures: `key`, `turn`, `alter`, `edf_on`, `edf_off`, `set_clock` and `apply` by `applies`, a definition
/// by `defined` or `refused`; and a call that was refused memory is none, for its clause `err` leaves the state as
/// before. The first of them are a run too.
#[tactic(auto, using(crate::proofs::TraceLemmas::events_are_steps, crate::proofs::TraceLemmas::fronts_are_traces))]
pub fn single_events_are_a_run()
    ensures steps { EventsAreSteps }
    ensures fronts { FrontsAreTraces }
{}

/// Of a run under EDF drop the events that EDF answered and refused alterations, and put an alteration for each PF12
/// that ended a task. What is left is a run of the region alone, with the region's replies. So tasks, storage, queues
/// and screens go through the same states.
#[tactic(auto, using(crate::proofs::TraceLemmas::what_is_left_is_a_run))]
pub fn what_is_left_is_a_run()
    ensures { WhatIsLeftIsARun }
{}

/// The displays that are kept of each terminal after a run under EDF are the last ten of its session, each of the
/// region as it was right after a half-turn of the terminal or its task's end by an alteration. So it is where they
/// were so before the run.
#[tactic(auto, using(crate::proofs::TraceLemmas::last_displays_are_kept))]
pub fn last_displays_are_kept()
    ensures { LastDisplaysAreKept }
{}

/// An event under EDF has one outcome: the state and the event determine the answer, and the state afterwards.
pub fn edf_events_decide()
    ensures { EdfEventsDecide }
{
    cx_region_laws::laws::events_decide();
}

/// A list of events under EDF has one outcome: the state and the list determine the answers, and the state after each
/// event.
pub fn edf_runs_decide()
    ensures { EdfRunsDecide }
{
    cx_region_laws::laws::events_decide();
}

/// Every run of the region alone over the events that are left (`what_is_left_is_a_run`) gives the region's replies
/// that were given under EDF, without EDF's answers and those of refused alterations, and with Altered for a PF12 that
/// ended a task; and it leads to the region that EDF left.
pub fn a_plain_run_agrees()
    ensures run { PlainRunsAgree }
    ensures replies { ReportedAreThoseGiven }
{
    cx_region_laws::laws::runs_decide();
}

/// An event is dropped for that run exactly where its answer is EDF's (to EDF ON and EDF OFF, a key in Stopped, a turn
/// that is held, an alteration outside Stopped) and it is no PF12 that ends a task, or where it is a refused
/// alteration. Such an event leaves the region as it was. An event of the region that EDF doesn't take is passed to the
/// region as it is. Whether an event is EDF's own is fixed by the event and its terminal's mode.
#[tactic(auto, using(crate::proofs::LawLemmas::own_answers, crate::proofs::LawLemmas::erased_events, crate::proofs::LawLemmas::erased_leave, crate::proofs::LawLemmas::others_are_passed))]
pub fn what_is_erased_changes_nothing()
    ensures answers { OwnEventsHaveOwnAnswers }
    ensures erased { ErasedEvents }
    ensures region { ErasedEventsLeaveTheRegion }
    ensures passed { OtherEventsArePassed }
{}

/// A session passes over a turn's stop only in Suppressed, where its stop conditions don't name it.
#[tactic(auto, using(crate::proofs::LawLemmas::stops_are_missed))]
pub fn no_stop_is_missed()
    ensures { StopsAreMissedUnderSuppression }
{}

/// With EDF Off at each terminal, events of the region other than alterations are answered and done as by the region
/// alone, and EDF stays Off. And each run of the region without alterations is done so with EDF Off.
#[tactic(auto, using(crate::proofs::LawLemmas::off_is_the_region, crate::proofs::LawLemmas::the_region_is_off))]
pub fn off_is_the_region()
    ensures off { OffIsTheRegion }
    ensures exists { TheRegionIsOff }
{}

/// Each run of the region without alterations can be watched: whatever sessions there are, and with EDF ON given at any
/// terminals before any of its events, there is a run under EDF of these events, with an ENTER before each that meets
/// its terminal stopped, of which exactly they are left, with the run's replies and to its region.
#[tactic(auto, using(crate::proofs::WatchedLemmas::runs_can_be_watched))]
pub fn every_run_can_be_watched()
    ensures { RunsCanBeWatched }
{}

/// A session put under a terminal's name is found there, and one taken out is gone; those of other terminals stay.
#[tactic(auto, using(crate::proofs::LookupLemmas::at_same, crate::proofs::LookupLemmas::at_other))]
pub fn sessions_keep_apart()
    ensures set { SessionsAreSet }
    ensures others { OtherSessionsStay }
{}

/// An event under EDF that was refused memory is none: the next one is done as if it had never come, with the answer
/// that it would have had, and modes and displays likewise. A list that ran out of memory, and goes on with the events
/// that weren't done, is the run of the whole.
#[tactic(auto, using(crate::proofs::MemoryLemmas::stopped_runs_go_on))]
pub fn a_refused_event_is_none()
    ensures event { RefusedEdfEventsAreNone }
    ensures run { StoppedEdfRunsGoOn }
{
    edf_events_decide();
}

/// Each event under EDF has an outcome, and each list of events, images checked, is a run: over the definitions alone,
/// in every state, whatever memory there is and whatever displays are.
pub fn each_event_has_an_outcome()
    ensures events { EdfEventsHaveOutcomes }
    ensures runs { EdfEventListsAreRuns }
{
    cx_region_laws::laws::each_event_has_an_outcome();
}

/// An event under EDF leads from a sound region to a sound one, over the definitions alone.
pub fn sound_is_kept()
    ensures { EdfSoundIsKept }
{
    cx_region_laws::laws::sound_is_kept();
}
