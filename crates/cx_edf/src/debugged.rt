//! A region under EDF.
ghost use Rattle.std.specs.Prelude.{◌≡◌, ◌≢◌, ◌≤◌, [], false, true, length, is_some, None, Some, Ok, Err, IfOk, IfErr, IsErrOf, IsOk, IsSomeAnd, MatchOption, OnErr, option_map};
ghost use Rattle.std.specs.Option.{option_and_then, option_copied};
ghost use Rattle.cx_storage.specs.Storage.{byte_at};
ghost use Rattle.cx_region.specs.Alter.{IsAllowedChange};
ghost use Rattle.cx_region.specs.Events.{Applies, IsAllowed, MayTakeMemory};
ghost use Rattle.cx_region.specs.Looking.{Shows};
ghost use Rattle.cx_region.specs.Sound.{IsSound};
ghost use Rattle.cx_region.specs.Tables.{task_of, terminal_of};
ghost use Rattle.cx_region.specs.declared.changes.Change.TheVariants as change;
ghost use Rattle.cx_region.specs.declared.replies.Event.TheVariants as event;
ghost use Rattle.cx_region.specs.declared.replies.Reply.TheVariants as reply;
ghost use Rattle.cx_edf.specs.Answers.{alter_answer, key_answer, turn_answer};
ghost use Rattle.cx_edf.specs.Erasure.{reply_in};
ghost use Rattle.cx_edf.specs.Runs.{MayTakeEdf};
ghost use Rattle.cx_edf.specs.Sessions.{nth_back, shown_of};
ghost use Rattle.cx_edf.specs.State.{ends_by_key, holds, session_at, stopped_at};
ghost use Rattle.cx_edf.specs.Steps.{EdfApplies, EdfHasAbendRecord, PassesOn};
ghost use Rattle.cx_edf.specs.declared.answers.EdfEvent.TheVariants as edf_event;
ghost use Rattle.cx_edf.specs.declared.answers.Answer.TheVariants as answer;

use crate::answers::{AlterAnswer, Answer, EdfReply, KeyAnswer, TurnAnswer};
use crate::displays::{Display, MakesDisplays};
use crate::modes::View;
use crate::sessions::Session;
use crate::table;
use cx_ebcdic::{Aid, Name4, Name8};
use cx_load::{CheckedImage, Loaded};
use cx_region::{AbendRecord, Change, DefineFault, Event, Region, TaskInfo};
use cx_service::Screen;
use cx_storage::Store;
use indexmap::IndexMap;
use std::alloc::{AllocError, Global};
use std::marker::{Model, PhantomData};

/// A region under EDF: each terminal is Off, or has a session. `M` makes its displays.
#[derive(Drop)]
pub struct Debugged<S: Store + Drop, M: MakesDisplays> {
    pub(crate) alloc: Global,
    pub(crate) region: Region<S>,
    pub(crate) sessions: IndexMap<Name4, Session>,
    pub(crate) displays: PhantomData<M>,
}

impl<S: Store + Drop, M: MakesDisplays> Model for Debugged<S, M> {
    ghost use Rattle.cx_region.specs.Sound.{IsSound};
    ghost use Rattle.cx_edf.specs.State.{EdfState};

    ghost Value = { EdfState };

    ghost view = { λ d. record { region = d.region; sessions = d.sessions.entries } };

    ghost invariant = { λ d. IsSound d.region };
}

impl<S: Store + Drop, M: MakesDisplays> Debugged<S, M> {
    /// The region, which is sound (`IsSound`), with EDF Off at each terminal. It takes no memory.
    pub fn new(alloc: Global, region: Region<S>) -> Debugged<S, M>
        requires { IsSound region }
        ensures region { result.region ≡ region }
        ensures off { result.sessions ≡ [] }
    {
        Debugged {
            alloc,
            region,
            sessions: IndexMap::new(alloc),
            displays: PhantomData,
        }
    }

    /// A key of a terminal with the bytes that it sends, at most 1,920. In Stopped it is EDF's; else it is the
    /// region's.
    ///
    /// ENTER lets the task go on, PF3 ends the session, PF4 goes on under suppression. PF5 and PF6 show the storage or
    /// the user page, or the main page where that page is shown; PF10 shows the display before. PF9 takes the words
    /// that are sent as stop conditions: ABEND, END, or a condition. PF12 ends the task by an abend, as `alter` does
    /// with `Change::Abend`; without a task it has no effect, and neither has any other key.
    ///
    /// An error comes only where an allocation failed in the region's key. Then all is as before.
    #[tactic(auto, unfolding(crate::specs::Steps::EdfApplies, crate::specs::Steps::door_of, crate::specs::Runs::MayTakeEdf, cx_region::specs::Events::Applies, cx_region::specs::Events::MayTakeMemory))]
    pub fn key(&mut self, name: Name4, aid: Aid, bytes: &[u8]) -> Result<KeyAnswer, AllocError>
        requires { length bytes.now ≤ 1920 }
        ensures applies { let key = edf_event.Plain (event.Key name aid bytes.now) in
            IfOk result (λ given. EdfApplies M.make self.old key (key_answer given) self.new) }
        ensures memory { OnErr result (MayTakeEdf self.old (edf_event.Plain (event.Key name aid bytes.now))) }
        ensures succeeds { stopped_at self.old name ≡ true → IsOk result }
        ensures err { OnErr result (self.new ≡ self.old) }
        ensures sound { IsSound self.new.region }
    {
        if self.ends_by_key(name, aid) {
            self.end_task(name);
            return Ok(KeyAnswer::ToEdf);
        }
        if table::is_stopped(&self.sessions, name) {
            table::key(&mut self.sessions, name, aid, bytes);
            return Ok(KeyAnswer::ToEdf);
        }
        let reply = self.region.key(name, aid, bytes)?;
        Ok(KeyAnswer::Region(reply))
    }

    /// Whether a key ends the task of a terminal.
    fn ends_by_key(&self, name: Name4, aid: Aid) -> bool
        ensures { result ≡ ends_by_key self.now name aid }
    {
        match aid {
            Aid::Pf12 => self.holds(name),
            _ => false,
        }
    }

    /// Whether the turns of a terminal are held: it is in Stopped, with a live task.
    fn holds(&self, name: Name4) -> bool
        ensures { result ≡ holds self.now name }
    {
        table::is_stopped(&self.sessions, name) && self.region.task(name).is_some()
    }

    /// Ends the task of a terminal by an abend that no exit takes.
    fn end_task(&mut self, name: Name4)
        ensures ended { let end = event.Alter name change.Abend in
            PassesOn M.make self.old end (Some answer.ToEdf) answer.ToEdf self.new }
        ensures sound { IsSound self.new.region }
    {
        let reply = self.region.alter(name, Change::Abend);
        table::alter::<S, M>(&mut self.sessions, &self.region, name, Change::Abend, reply);
    }

    /// Alters the task of a terminal in Stopped: a register (0 to 15), a byte of storage, the command that is due, or
    /// that there is a task at all, as `Change` says. `Change::Register` and `Change::Byte` leave the terminal stopped
    /// and its displays as they are. After `Change::Nop` the task goes on; after `Change::Abend` the terminal is
    /// stopped over, with a display of it whatever its stop conditions are.
    ///
    /// It is refused by the first that applies of: no such terminal, not stopped, no task, no command due for
    /// `Change::Nop`, no byte at the address for `Change::Byte` (from 2^24 on there is none). Then all is as before. It
    /// takes no memory.
    #[tactic(auto, unfolding(crate::specs::Steps::EdfApplies, crate::specs::Steps::door_of, cx_region::specs::Events::Applies))]
    pub fn alter(&mut self, name: Name4, change: Change) -> AlterAnswer
        requires { IsAllowedChange change }
        ensures applies { let alter = edf_event.Plain (event.Alter name change) in
            EdfApplies M.make self.old alter (alter_answer result) self.new }
        ensures sound { IsSound self.new.region }
    {
        if self.region.screen(name).is_some() && !table::is_stopped(&self.sessions, name) {
            return AlterAnswer::NotStopped;
        }
        let reply = self.region.alter(name, change);
        table::alter::<S, M>(&mut self.sessions, &self.region, name, change, reply);
        AlterAnswer::Region(reply)
    }

    /// A turn of a terminal. In Stopped with a live task it is Held, and nothing is done; else it is the region's, and
    /// where its reply is a stop that the mode takes, the terminal is stopped, with a display of the region as it is
    /// then.
    ///
    /// An error comes only where an allocation failed in the region's turn. Then all is as before.
    pub fn turn(&mut self, name: Name4) -> Result<TurnAnswer, AllocError>
        ensures applies { let turn = edf_event.Plain (event.Turn name) in
            IfOk result (λ given. EdfApplies M.make self.old turn (turn_answer given) self.new) }
        ensures memory { OnErr result (MayTakeEdf self.old (edf_event.Plain (event.Turn name))) }
        ensures held { holds self.old name ≡ true → IsOk result }
        ensures err { OnErr result (self.new ≡ self.old) }
        ensures sound { IsSound self.new.region }
    {
        let (given, _abend_record) = self.turn_with_cause(name)?;
        Ok(given)
    }

    /// A turn of a terminal, as `turn`, that reports why it leads to an abend, where it does.
    ///
    /// An error comes only where an allocation failed in the region's turn. Then all is as before.
    #[tactic(auto, unfolding(crate::specs::Steps::EdfApplies, crate::specs::Steps::door_of, crate::specs::Steps::EdfHasAbendRecord, crate::specs::Runs::MayTakeEdf, cx_region::specs::Events::Applies, cx_region::specs::Events::MayTakeMemory))]
    pub fn turn_with_cause(
        &mut self,
        name: Name4,
    ) -> Result<(TurnAnswer, Option<AbendRecord>), AllocError>
        ensures applies { let turn = edf_event.Plain (event.Turn name) in
            IfOk result (λ both. EdfApplies M.make self.old turn (turn_answer both.0) self.new) }
        ensures abend_record { IfOk result
            (λ both. EdfHasAbendRecord self.old (edf_event.Plain (event.Turn name)) both.1) }
        ensures memory { OnErr result (MayTakeEdf self.old (edf_event.Plain (event.Turn name))) }
        ensures held { holds self.old name ≡ true → IsOk result }
        ensures err { OnErr result (self.new ≡ self.old) }
        ensures sound { IsSound self.new.region }
    {
        if self.holds(name) {
            return Ok((TurnAnswer::Held, None));
        }
        let (reply, abend_record) = self.region.turn_with_cause(name)?;
        table::note::<S, M>(&mut self.sessions, &self.region, name, &reply);
        Ok((TurnAnswer::Region(reply), abend_record))
    }

    /// Begins a session of a terminal that is Off, with room for its ten displays: its task stops from its next turn
    /// on. Else it is answered NoSuchTerminal or AlreadyOn.
    ///
    /// An error comes only where memory for the session was refused. Then all is as before.
    #[tactic(auto, unfolding(crate::specs::Steps::EdfApplies, crate::specs::Steps::door_of, crate::specs::Runs::MayTakeEdf))]
    pub fn edf_on(&mut self, name: Name4) -> Result<EdfReply, AllocError>
        ensures applies { let on = edf_event.On name in
            IfOk result (λ given. EdfApplies M.make self.old on (answer.Edf given) self.new) }
        ensures memory { OnErr result (MayTakeEdf self.old (edf_event.On name)) }
        ensures err { OnErr result (self.new ≡ self.old) }
        ensures sound { IsSound self.new.region }
    {
        if self.region.screen(name).is_none() {
            return Ok(EdfReply::NoSuchTerminal);
        }
        if self.sessions.contains_key(&name) {
            return Ok(EdfReply::AlreadyOn);
        }
        table::begin(self.alloc, &mut self.sessions, name)?;
        Ok(EdfReply::Started)
    }

    /// Ends the session of a terminal, in any mode, and drops its displays. Where there is none it is answered
    /// NoSuchTerminal or NotOn. It takes no memory.
    #[tactic(auto, unfolding(crate::specs::Steps::EdfApplies, crate::specs::Steps::door_of))]
    pub fn edf_off(&mut self, name: Name4) -> EdfReply
        ensures applies { EdfApplies M.make self.old (edf_event.Off name) (answer.Edf result) self.new }
        ensures sound { IsSound self.new.region }
    {
        if self.region.screen(name).is_none() {
            return EdfReply::NoSuchTerminal;
        }
        if !self.sessions.contains_key(&name) {
            return EdfReply::NotOn;
        }
        table::end(&mut self.sessions, name);
        EdfReply::Closed
    }

    /// Does an event of the region that EDF never takes: a definition, or the clock. It leads to no abend.
    pub(crate) fn pass(
        &mut self,
        event: &Event,
    ) -> Result<(Answer, Option<AbendRecord>), AllocError>
        requires { IsAllowed event.now }
        ensures applies { IfOk result
            (λ both. Applies self.old.region event.now (reply_in both.0) self.new.region) }
        ensures answers { IfOk result (λ both. both.0 ≡ answer.Region (reply_in both.0)) }
        ensures none { IfOk result (λ both. both.1 ≡ None) }
        ensures sessions { self.new.sessions ≡ self.old.sessions }
        ensures memory { OnErr result (MayTakeMemory self.old.region event.now) }
        ensures err { OnErr result (self.new ≡ self.old) }
        ensures sound { IsSound self.new.region }
    {
        let reply = self.region.apply(event)?;
        Ok((Answer::Region(reply), None))
    }

    /// Loads a program and defines it by its name, as the region does.
    ///
    /// The faults are the region's, and so is when each comes. Then all is as before.
    #[tactic(auto, unfolding(crate::specs::Steps::EdfApplies, crate::specs::Steps::door_of, cx_region::specs::Events::Applies, cx_region::specs::Events::MayTakeMemory))]
    pub fn define_program(
        &mut self,
        name: Name8,
        image: &CheckedImage,
    ) -> Result<Loaded, DefineFault>
        ensures defined { let define = edf_event.Plain (event.Program name image.now) in
            IfOk result (λ loaded. let defined = answer.Region (reply.Program (Ok loaded)) in
            EdfApplies M.make self.old define defined self.new) }
        ensures refused { let define = edf_event.Plain (event.Program name image.now) in
            IfErr result (λ fault. let refusal = answer.Region (reply.Program (Err fault)) in
            fault ≢ DefineFault.Memory → EdfApplies M.make self.old define refusal self.new) }
        ensures memory { let defined = event.Program name image.now in
            IsErrOf result DefineFault.Memory → MayTakeMemory self.old.region defined }
        ensures err { OnErr result (self.new ≡ self.old) }
        ensures sound { IsSound self.new.region }
    {
        self.region.define_program(name, image)
    }

    /// Defines a transaction by its name and that of its program, as the region does.
    ///
    /// The faults are the region's, and so is when each comes. Then all is as before.
    #[tactic(auto, unfolding(crate::specs::Steps::EdfApplies, crate::specs::Steps::door_of, cx_region::specs::Events::Applies, cx_region::specs::Events::MayTakeMemory, cx_region::specs::Defining::DefinesTransaction, cx_region::specs::Defining::transaction_fault))]
    pub fn define_transaction(&mut self, name: Name4, program: Name8) -> Result<(), DefineFault>
        ensures defined { let define = edf_event.Plain (event.Transaction name program) in
            IfOk result (λ done. let defined = answer.Region (reply.Transaction (Ok done)) in
            EdfApplies M.make self.old define defined self.new) }
        ensures refused { let define = edf_event.Plain (event.Transaction name program) in
            IfErr result (λ fault. let refusal = answer.Region (reply.Transaction (Err fault)) in
            fault ≢ DefineFault.Memory → EdfApplies M.make self.old define refusal self.new) }
        ensures memory { let defined = event.Transaction name program in
            IsErrOf result DefineFault.Memory → MayTakeMemory self.old.region defined }
        ensures err { OnErr result (self.new ≡ self.old) }
        ensures sound { IsSound self.new.region }
    {
        self.region.define_transaction(name, program)
    }

    /// Defines a terminal by its name, as the region does: EDF is Off there.
    ///
    /// The faults are the region's, and so is when each comes. Then all is as before.
    #[tactic(auto, unfolding(crate::specs::Steps::EdfApplies, crate::specs::Steps::door_of, cx_region::specs::Events::Applies, cx_region::specs::Events::MayTakeMemory, cx_region::specs::Defining::DefinesTerminal, cx_region::specs::Defining::terminal_fault))]
    pub fn define_terminal(&mut self, name: Name4) -> Result<(), DefineFault>
        ensures defined { let define = edf_event.Plain (event.Terminal name) in
            IfOk result (λ done. let defined = answer.Region (reply.Terminal (Ok done)) in
            EdfApplies M.make self.old define defined self.new) }
        ensures refused { let define = edf_event.Plain (event.Terminal name) in
            IfErr result (λ fault. let refusal = answer.Region (reply.Terminal (Err fault)) in
            fault ≢ DefineFault.Memory → EdfApplies M.make self.old define refusal self.new) }
        ensures memory { IsErrOf result DefineFault.Memory → MayTakeMemory self.old.region (event.Terminal name) }
        ensures err { OnErr result (self.new ≡ self.old) }
        ensures sound { IsSound self.new.region }
    {
        self.region.define_terminal(name)
    }

    /// Sets the clock, for the tasks attached later: the time as hhmmss (at most 999,999) and the date as yyddd (at
    /// most 99,999). It takes no memory.
    #[tactic(auto, unfolding(crate::specs::Steps::EdfApplies, crate::specs::Steps::door_of, cx_region::specs::Events::Applies))]
    pub fn set_clock(&mut self, time: u32, date: u32)
        requires time { time ≤ 999999 }
        requires date { date ≤ 99999 }
        ensures applies { let clock_set = edf_event.Plain (event.Clock time date) in
            EdfApplies M.make self.old clock_set (answer.Region reply.Clock) self.new }
        ensures sound { IsSound self.new.region }
    {
        self.region.set_clock(time, date);
    }

    /// The region. It takes no memory.
    pub fn region(&self) -> &Region<S>
        ensures region { result.now ≡ self.now.region }
        ensures sound { IsSound self.now.region }
    {
        &self.region
    }

    /// The screen of a terminal; None where there is no such terminal. It takes no memory.
    pub fn screen(&self, name: Name4) -> Option<&Screen>
        ensures { option_copied result
            ≡ option_map (λ terminal. terminal.entry.screen) (terminal_of self.now.region name) }
    {
        self.region.screen(name)
    }

    /// The live task of a terminal; None where there is none, or no such terminal. It takes no memory.
    pub fn task(&self, name: Name4) -> Option<TaskInfo>
        ensures { MatchOption (task_of self.now.region name) (result ≡ None)
            (λ task. IsSomeAnd result (Shows task)) }
    {
        self.region.task(name)
    }

    /// The byte at an address; None where no area has it, and from 2^24 on. It takes no memory.
    pub fn byte(&self, address: u32) -> Option<u8>
        ensures { result ≡ byte_at self.now.region.shared.storage address }
    {
        self.region.byte(address)
    }

    /// The session of a terminal; None where EDF is Off there, or there is no such terminal. It takes no memory.
    pub fn session(&self, name: Name4) -> Option<&Session>
        ensures { option_copied result ≡ session_at self.now name }
    {
        self.sessions.get(&name)
    }

    /// In Stopped the display that is shown, and which of its pages; None in any other mode. It takes no memory.
    pub fn display(&self, name: Name4) -> Option<(&Display, View)>
        ensures shown { option_map (λ p. (p.0.now, p.1)) result
            ≡ option_and_then shown_of (session_at self.now name) }
        ensures stopped { is_some result ≡ stopped_at self.now name }
    {
        let session = self.sessions.get(&name)?;
        session.shown()
    }

    /// The display `back` displays before the newest one of a terminal's session, 0 being the newest; None past the
    /// oldest, and where EDF is Off. It takes no memory.
    pub fn previous(&self, name: Name4, back: usize) -> Option<&Display>
        ensures { let session = session_at self.now name in
            option_copied result ≡ option_and_then (λ it. nth_back it.displays back) session }
    {
        let session = self.sessions.get(&name)?;
        session.previous(back)
    }
}
