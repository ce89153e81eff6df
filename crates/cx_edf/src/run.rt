//! Events under EDF, and runs of them.
ghost use Rattle.std.specs.Prelude.{◌≡◌, IfOk, IfErr, OnErr};
ghost use Rattle.std.specs.List.{AllByRecursion};
ghost use Rattle.cx_region.specs.Events.{IsAllowed, IsDone, RunStopped};
ghost use Rattle.cx_region.specs.Sound.{IsSound};
ghost use Rattle.cx_edf.specs.Answers.{alter_answer, key_answer, turn_answer};
ghost use Rattle.cx_edf.specs.Steps.{EdfApplies, EdfHasAbendRecord};
ghost use Rattle.cx_edf.specs.Runs.{EdfRun, IsAllowedEdf, MayTakeEdf};
ghost use Rattle.cx_edf.specs.declared.answers.EdfEvent.TheVariants as edf_event;

use crate::answers::{AlterAnswer, Answer, EdfEvent, KeyAnswer, TurnAnswer};
use crate::debugged::Debugged;
use crate::displays::MakesDisplays;
use cx_region::{AbendRecord, Event, Reply, RunStop};
use cx_storage::Store;
use std::alloc::AllocError;

/// The answer of a key, as an event's.
fn of_key(given: KeyAnswer) -> Answer
    ensures { result ≡ key_answer given }
{
    match given {
        KeyAnswer::Region(reply) => Answer::Region(Reply::Key(reply)),
        KeyAnswer::ToEdf => Answer::ToEdf,
    }
}

/// The answer of a turn, as an event's.
fn of_turn(given: TurnAnswer) -> Answer
    ensures { result ≡ turn_answer given }
{
    match given {
        TurnAnswer::Region(reply) => Answer::Region(Reply::Turn(reply)),
        TurnAnswer::Held => Answer::Held,
    }
}

/// The answer of an alteration, as an event's.
fn of_alter(given: AlterAnswer) -> Answer
    ensures { result ≡ alter_answer given }
{
    match given {
        AlterAnswer::Region(reply) => Answer::Region(Reply::Alter(reply)),
        AlterAnswer::NotStopped => Answer::NotStopped,
    }
}

impl<S: Store + Drop, M: MakesDisplays> Debugged<S, M> {
    /// Does one event: the call that it names. What that call takes is asked of it: a clock as for `set_clock`, at most
    /// 1,920 bytes of a key, a register as for `alter`. A refusal of the call is its answer.
    ///
    /// An error comes only where an allocation failed, no refusal is due, and the event may take memory. Then all is as
    /// before.
    pub fn apply(&mut self, event: &EdfEvent) -> Result<Answer, AllocError>
        requires { IsAllowedEdf event.now }
        ensures done { IsDone (EdfApplies M.make) MayTakeEdf self.old event.now result self.new }
        ensures sound { IsSound self.new.region }
    {
        let (answer, _abend_record) = self.apply_with_cause(event)?;
        Ok(answer)
    }

    /// Does one event, as `apply`, and reports why it leads to an abend, where it is a turn that does. An abend by an
    /// operator's ALTER or PF12 has no cause.
    ///
    /// An error comes only where an allocation failed, no refusal is due, and the event may take memory. Then all is as
    /// before.
    #[tactic(auto, unfolding(crate::specs::Steps::EdfHasAbendRecord))]
    pub fn apply_with_cause(
        &mut self,
        event: &EdfEvent,
    ) -> Result<(Answer, Option<AbendRecord>), AllocError>
        requires { IsAllowedEdf event.now }
        ensures applies { IfOk result (λ both. EdfApplies M.make self.old event.now both.0 self.new) }
        ensures abend_record { IfOk result (λ both. EdfHasAbendRecord self.old event.now both.1) }
        ensures memory { OnErr result (MayTakeEdf self.old event.now) }
        ensures err { OnErr result (self.new ≡ self.old) }
        ensures sound { IsSound self.new.region }
    {
        match event {
            EdfEvent::On(name) => {
                let reply = self.edf_on(*name)?;
                Ok((Answer::Edf(reply), None))
            }
            EdfEvent::Off(name) => {
                let reply = self.edf_off(*name);
                Ok((Answer::Edf(reply), None))
            }
            EdfEvent::Plain(plain) => self.plain(plain),
        }
    }

    /// Does one event of the region.
    #[tactic(auto, unfolding(crate::specs::Steps::EdfApplies, crate::specs::Steps::door_of, crate::specs::Steps::EdfHasAbendRecord, crate::specs::Runs::MayTakeEdf))]
    fn plain(&mut self, event: &Event) -> Result<(Answer, Option<AbendRecord>), AllocError>
        requires { IsAllowed event.now }
        ensures applies { IfOk result (λ both. EdfApplies M.make self.old (edf_event.Plain event.now) both.0 self.new) }
        ensures abend_record { IfOk result (λ both. EdfHasAbendRecord self.old (edf_event.Plain event.now) both.1) }
        ensures memory { OnErr result (MayTakeEdf self.old (edf_event.Plain event.now)) }
        ensures err { OnErr result (self.new ≡ self.old) }
        ensures sound { IsSound self.new.region }
    {
        match event {
            Event::Key(name, aid, bytes) => {
                let given = self.key(*name, *aid, bytes.as_slice())?;
                Ok((of_key(given), None))
            }
            Event::Turn(name) => {
                let (given, abend_record) = self.turn_with_cause(*name)?;
                Ok((of_turn(given), abend_record))
            }
            Event::Alter(name, change) => Ok((of_alter(self.alter(*name, *change)), None)),
            Event::Program(_, _) => self.pass(event),
            Event::Transaction(_, _) => self.pass(event),
            Event::Terminal(_) => self.pass(event),
            Event::Clock(_, _) => self.pass(event),
        }
    }

    /// Does events in order, and answers what each is answered. What each call takes is asked of each event: a clock as
    /// for `set_clock`, at most 1,920 bytes of a key, a register as for `alter`.
    ///
    /// There are states, one after each event, and each event with its answer is what EDF does in the state before it.
    /// So EDF is transparent (`laws::what_is_left_is_a_run`): the events that EDF doesn't answer itself, without
    /// refused alterations and with an alteration for each PF12 that ended a task, are a run of the region alone, with
    /// the region's replies, up to each event; and the displays that are kept of each terminal are the last ten of its
    /// session (`laws::last_displays_are_kept`).
    ///
    /// It stops where an allocation failed: in front of the first event where there is no memory for the answers to
    /// all, else at an event that may take memory. The state is as the events done left it.
    pub fn run(&mut self, events: &[EdfEvent]) -> Result<Vec<Answer>, RunStop>
        requires { AllByRecursion IsAllowedEdf events.now }
        ensures ok { IfOk result (λ answers. EdfRun M.make self.old events.now answers.items self.new) }
        ensures stopped { IfErr result (λ stop.
            RunStopped (EdfRun M.make) MayTakeEdf self.old events.now stop.done self.new) }
        ensures sound { IsSound self.new.region }
    {
        let alloc = self.alloc;
        let Ok(mut answers) = Vec::with_capacity(alloc, events.len()) else {
            return Err(RunStop { done: 0 });
        };
        for (i, event) in events.iter().enumerate() {
            let Ok(given) = self.apply(event) else {
                return Err(RunStop { done: i });
            };
            answers.push_reserved(given);
        }
        Ok(answers)
    }
}
