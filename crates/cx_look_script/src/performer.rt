//! What a script with looks is performed on.
ghost use Rattle.std.specs.Prelude.{◌≡◌, [], false, IfOk, MatchBool, None, OnOk, length};
ghost use Rattle.cx_edf.specs.Runs.{IsAllowedEdf};
ghost use Rattle.cx_script_actions.specs.Allowed.{IsAllowedAction};
ghost use Rattle.cx_script_actions.specs.declared.actions.Action.TheVariants as edf_action;
ghost use Rattle.cx_look_script.specs.declared.action.WatchLine.TheVariants as watch;
ghost use Rattle.cx_look_script.specs.Looking.{Acts, LookPerforms, NotedPerforms, RunsTurn, SourcePerforms, TakesOneMore, TakesNotedTurn};
ghost use Rattle.cx_look_cover.specs.Tallies.{programs_end};
ghost use Rattle.cx_look_script.specs.Covered.{Covers, cover_lines, covered_from, machine_run};
ghost use Rattle.cx_look_script.specs.Runs.{AppliesAtLooks, run_over};
ghost use Rattle.cx_look_script.specs.State.{fresh_look_state};
ghost use Rattle.cx_look_script.specs.Watched.{ShowsChanges, watch_lines, watched_after};
ghost use Rattle.cx_look_script.specs.Allowed.{IsAllowedLook};
ghost use Rattle.cx_look_ahead.specs.Watching.{ActionEffect, begun_watch, with_range};
ghost use Rattle.cx_look_lines.specs.Words.{marked};

use crate::action::{LookAction, Stop, WatchLine};
use crate::choices::choices_written;
use crate::covered::{cover_line, tally};
use crate::help::bad_look_text;
use crate::looks::look_text;
use crate::orders::orders_written;
use crate::sources::{has_program, is_program_defined};
use crate::turns::{still_running, stop_line, turn_goes_on};
use crate::watched::{cause_of, field_range, no_range, off};
use cx_base::List;
use cx_ebcdic::{Name4, Name8};
use cx_edf::{Answer, Debugged, EdfEvent, MakesDisplays};
use cx_look_abend::{LastAbends, apply_keeping_abends};
use cx_look_ahead::{Cause, Done, Kept, Row, Watches, Work, change_lines, work_of};
use cx_look_cover::Tallies;
use cx_look_lines::Report;
use cx_look_symbols::{Sources, statement_places};
use cx_region::Event;
use cx_script::edf_performer;
use cx_script_actions::{Action, Performer, answer_text};
use cx_source::Text;
use cx_storage::Store;
use cx_storage_pages::{KeepingStore, PagedStore};
use indexmap::IndexMap;
use std::alloc::{AllocError, Global};
use std::marker::Model;

/// A region under EDF that is looked at, with each terminal's last abend, what is kept of the sources that defined
/// programs, the ranges of bytes that are watched, how often instructions were run since COVER ON, while it is on, and
/// whether the last event was a turn that one more turn follows. `M` makes its displays.
#[derive(Drop)]
pub struct LookedRegion<S: Store + Drop, M: MakesDisplays> {
    pub(crate) state: Debugged<S, M>,
    pub(crate) abends: LastAbends,
    pub(crate) sources: Sources,
    pub(crate) watches: Watches,
    pub(crate) covered: Option<Tallies>,
    pub(crate) goes_on: bool,
}

impl<S: Store + Drop, M: MakesDisplays> Model for LookedRegion<S, M> {
    ghost use Rattle.cx_look_script.specs.State.{LookState};

    ghost Value = { LookState };

    ghost view = { λ held.
        record {
          edf = held.state;
          abends = held.abends.entries;
          sources = held.sources;
          watched = held.watches;
          covered = held.covered;
          goes_on = held.goes_on;
        } };
}

impl<S: Store + Drop, M: MakesDisplays> LookedRegion<S, M> {
    /// A region under EDF without a terminal and without a program, to be looked at. It takes no memory.
    pub fn new(alloc: Global, state: Debugged<S, M>) -> LookedRegion<S, M>
        ensures { result
            ≡ record {
              edf = state;
              abends = [];
              sources = record { lines = []; places = [] };
              watched = [];
              covered = None;
              goes_on = false;
            } }
    {
        LookedRegion {
            state,
            abends: IndexMap::new(alloc),
            sources: Sources::new(alloc),
            watches: Watches::new(alloc),
            covered: None,
            goes_on: false,
        }
    }

    /// Counts the instructions that an event is going to run, while COVER is on.
    #[tactic(auto, unfolding(crate::specs::Covered::Covers))]
    fn cover(&mut self, event: &EdfEvent) -> Result<(), AllocError>
        ensures { let end = programs_end self.old.edf.region.shared.programs in
            OnOk result
            (Covers (machine_run self.old.edf event.now) end self.old.covered self.new.covered
            × (self.new ≡ record self.old { covered = self.new.covered })) }
    {
        let alloc = self.state.region().shared().alloc;
        match &mut self.covered {
            Some(tallies) => tally(alloc, &self.state, event, tallies),
            None => Ok(()),
        }
    }

    /// Does an event, keeps the abend that it led to, and whether it was a turn that one more follows; what it runs is
    /// counted, while COVER is on.
    pub(crate) fn apply(&mut self, event: &EdfEvent) -> Result<Answer, AllocError>
        requires { IsAllowedEdf event.now }
        ensures { IfOk result (λ given. AppliesAtLooks M.make self.old event.now given self.new) }
    {
        self.cover(event)?;
        let answer = apply_keeping_abends(&mut self.state, &mut self.abends, event)?;
        self.goes_on = turn_goes_on(&self.state, event, &answer);
        Ok(answer)
    }

    /// Does an event, and gives the text of its answer.
    #[tactic(auto, unfolding(crate::specs::Looking::NotedPerforms))]
    fn do_event(&mut self, alloc: Global, event: &EdfEvent) -> Result<Vec<u8>, AllocError>
        requires { IsAllowedEdf event.now }
        ensures { IfOk result (λ text. NotedPerforms M.make self.old (edf_action.Event event.now) text.items self.new) }
    {
        let answer = self.apply(event)?;
        answer_text(alloc, event, answer)
    }

    /// Does a turn of a terminal.
    fn do_turn(&mut self, alloc: Global, name: Name4) -> Result<Vec<u8>, AllocError>
        ensures { IfOk result (λ text. TakesNotedTurn M.make self.old name text.items self.new) }
    {
        self.do_event(alloc, &EdfEvent::Plain(Event::Turn(name)))
    }

    /// Ends a RUN.
    fn end_run(&mut self)
        ensures { self.new ≡ run_over self.old }
    {
        self.goes_on = false;
    }

    /// Does a turn of RUN, or writes the line with which RUN ends in front of it.
    fn run_turn(&mut self, alloc: Global, name: Name4, stop: Stop) -> Result<Vec<u8>, AllocError>
        ensures { IfOk result (λ text. RunsTurn M.make self.old name stop text.items self.new) }
    {
        match stop_line(alloc, &self.sources, &self.state, name, stop)? {
            Some(line) => {
                self.end_run();
                Ok(line)
            }
            None => self.do_turn(alloc, name),
        }
    }

    /// Does one more turn of RUN, or writes that none is left; nothing where the last turn isn't to be followed by one
    /// more.
    fn run_on(
        &mut self,
        alloc: Global,
        name: Name4,
        n: u16,
        stop: Stop,
    ) -> Result<Vec<u8>, AllocError>
        ensures { IfOk result (λ text.
            MatchBool self.old.goes_on (TakesOneMore M.make self.old name n stop text.items self.new)
            ((text.items ≡ []) × (self.new ≡ self.old))) }
    {
        if !self.goes_on {
            return Ok(Vec::new(alloc));
        }
        if n > 0 {
            return self.run_turn(alloc, name, stop);
        }
        self.end_run();
        still_running(alloc, name)
    }

    /// Does what a script of `cicsedf` asks too.
    #[tactic(auto, unfolding(crate::specs::Looking::NotedPerforms))]
    fn do_action(&mut self, alloc: Global, action: Action) -> Result<Vec<u8>, AllocError>
        requires { IsAllowedAction action }
        ensures { IfOk result (λ text. NotedPerforms M.make self.old action text.items self.new) }
    {
        if let Action::Event(event) = &action {
            return self.do_event(alloc, event);
        }
        self.state.perform(alloc, action)
    }

    /// Does what the end of a source's block asks in a script of `cicsedf`, and keeps the lines of the source where it
    /// defined its program. Room for them is made before.
    fn define(
        &mut self,
        alloc: Global,
        name: Name8,
        lines: List<Text>,
        action: Action,
    ) -> Result<Vec<u8>, AllocError>
        requires { IsAllowedAction action }
        ensures { IfOk result (λ text. SourcePerforms M.make self.old name lines action text.items self.new) }
    {
        let was_there = has_program(self.state.region(), name);
        let places = statement_places(alloc, lines.as_slice())?;
        self.sources.make_room()?;
        let text = self.do_action(alloc, action)?;
        let is_new = is_program_defined(self.state.region(), name, was_there);
        self.sources.keep(name, lines, places, is_new)?;
        Ok(text)
    }

    /// Watches a range more.
    fn watch_range(&mut self, alloc: Global, range: Row) -> Result<Report, AllocError>
        ensures { IfOk result (λ report.
            (report ≡ begun_watch self.old.watched self.old.edf.region.shared.storage range)
            × (self.new ≡ record self.old { watched = with_range self.old.watched range })) }
    {
        self.watches
            .watch(alloc, &self.state.region().shared().store, range)
    }

    /// Watches a field of the current level of a terminal's task, where there is one.
    fn watch_field(&mut self, alloc: Global, term: Name4, name: Name8) -> Result<Report, AllocError>
        ensures { IfOk result (λ report.
            (report ≡ watch_lines self.old (watch.Field term name))
            × (self.new ≡ record self.old { watched = watched_after self.old (watch.Field term name) })) }
    {
        match field_range(alloc, self, term, name)? {
            Some(range) => self.watch_range(alloc, range),
            None => no_range(alloc, term, name),
        }
    }

    /// Watches nothing any more.
    fn watch_nothing(&mut self, alloc: Global) -> Result<Report, AllocError>
        ensures { IfOk result (λ report.
            (report ≡ watch_lines self.old watch.Off) × (self.new ≡ record self.old { watched = [] })) }
    {
        self.watches.stop();
        off(alloc)
    }

    /// Does what WATCH asks.
    fn watch(&mut self, alloc: Global, line: WatchLine) -> Result<Vec<u8>, AllocError>
        ensures { IfOk result (λ text.
            (text.items ≡ marked (watch_lines self.old line))
            × (self.new ≡ record self.old { watched = watched_after self.old line })) }
    {
        let report = match line {
            WatchLine::Range(at, length) => self.watch_range(alloc, Row { at, length })?,
            WatchLine::Field(term, name) => self.watch_field(alloc, term, name)?,
            WatchLine::Off => self.watch_nothing(alloc)?,
        };
        report.marked()
    }

    /// Does what COVER asks.
    fn cover_from(&mut self, alloc: Global, on: bool) -> Result<Vec<u8>, AllocError>
        ensures { IfOk result (λ text.
            (text.items ≡ marked (cover_lines on))
            × (self.new ≡ record self.old { covered = covered_from on })) }
    {
        let report = cover_line(alloc, on)?;
        self.covered = if on { Some(Tallies::new(alloc)) } else { None };
        report.marked()
    }

    /// The lines of the ranges whose bytes aren't as they were kept, after what was done.
    fn changed(
        &self,
        alloc: Global,
        cause: Cause,
        work: &Work,
        kept: &[Kept],
    ) -> Result<Vec<u8>, AllocError>
        ensures { let done : ActionEffect = record {
          by = cause;
          done = work.now;
          sources = self.now.sources;
          programs = self.now.edf.region.shared.programs;
          storage = self.now.edf.region.shared.storage;
        } in IfOk result (λ text. ShowsChanges done kept.now text.items) }
    {
        let shared = self.state.region().shared();
        let done = Done {
            cause,
            work,
            sources: &self.sources,
            programs: &shared.programs,
            store: &shared.store,
        };
        let report = change_lines(alloc, &done, kept)?;
        report.marked()
    }

    /// Does an action, but for what is written of the bytes that are watched.
    #[tactic(auto, unfolding(crate::specs::Looking::Acts))]
    fn act(&mut self, alloc: Global, action: LookAction) -> Result<Vec<u8>, AllocError>
        requires { IsAllowedLook action }
        ensures { IfOk result (λ text. Acts M.make self.old action text.items self.new) }
    {
        match action {
            LookAction::Script(action) => self.do_action(alloc, action),
            LookAction::Source(name, lines, action) => self.define(alloc, name, lines, action),
            LookAction::Run(name, _, stop) => self.run_turn(alloc, name, stop),
            LookAction::RunOn(name, n, stop) => self.run_on(alloc, name, n, stop),
            LookAction::Watch(line) => self.watch(alloc, line),
            LookAction::Cover(on) => self.cover_from(alloc, on),
            LookAction::Look(look) => look_text(alloc, self, look),
            LookAction::Orders(block) => orders_written(alloc, self, block),
            LookAction::Choices(block) => choices_written(alloc, self, block),
            LookAction::BadLook(number, subject) => bad_look_text(alloc, number, subject),
        }
    }

    /// Does an action where nothing is watched.
    #[tactic(auto, using(crate::proofs::WatchLemmas::not_watched))]
    fn act_unwatched(&mut self, alloc: Global, action: LookAction) -> Result<Vec<u8>, AllocError>
        requires allowed { IsAllowedLook action }
        requires unwatched { length self.old.watched ≡ 0 }
        ensures { IfOk result (λ text. LookPerforms M.make self.old action text.items self.new) }
    {
        let text = self.act(alloc, action)?;
        Ok(text)
    }

    /// Keeps the bytes that are watched and what a turn is going to do, does the action, and adds a line for each range
    /// of which a byte has changed.
    #[tactic(auto, using(crate::proofs::WatchLemmas::is_watched))]
    fn act_watched(&mut self, alloc: Global, action: LookAction) -> Result<Vec<u8>, AllocError>
        requires { IsAllowedLook action }
        ensures { IfOk result (λ text. LookPerforms M.make self.old action text.items self.new) }
    {
        let cause = cause_of(&action);
        let kept = self
            .watches
            .kept(alloc, &self.state.region().shared().store)?;
        let work = work_of(alloc, self.state.region(), &cause)?;
        let mut text = self.act(alloc, action)?;
        text.extend_from_slice(&self.changed(alloc, cause, &work, &kept)?)?;
        Ok(text)
    }
}

/// What a script of `cicslook` is performed on. `M` makes its displays.
pub type LookPerformer<M> = LookedRegion<KeepingStore<PagedStore>, M>;

/// The performer of a script of `cicslook` at its beginning: a fresh region, with EDF Off at each terminal.
///
/// An error comes only where an allocation failed.
pub fn look_performer<M: MakesDisplays>(alloc: Global) -> Result<LookPerformer<M>, AllocError>
    ensures { IfOk result (λ performer. performer ≡ fresh_look_state) }
{
    Ok(LookedRegion::new(alloc, edf_performer(alloc)?))
}

impl<S: Store + Drop, M: MakesDisplays> Performer for LookedRegion<S, M> {
    type Action = LookAction;

    ghost performs = { LookPerforms M.make };

    ghost refused = { λ _ _ _. Unit {0} };

    /// Does the action, and adds a line for each range that is watched and of which a byte has changed. Where memory
    /// for these lines is refused the action has been done, as where it is refused for what is written for the action
    /// itself.
    fn perform(&mut self, alloc: Global, action: LookAction) -> Result<Vec<u8>, AllocError> {
        if self.watches.is_empty() {
            return self.act_unwatched(alloc, action);
        }
        self.act_watched(alloc, action)
    }
}
