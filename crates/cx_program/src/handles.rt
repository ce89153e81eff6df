//! The handle entries and the exit of one level.
ghost use Rattle.std.specs.Prelude.{◌≡◌, ◌≢◌, ◌<◌, ◌≤◌, ◌↔◌, if◌then◌else◌, false, length, reverse, IsOk, OnOk, OnErr, IfErr};
ghost use Rattle.cx_program.specs.Entries.{label_on, turned_off, turned_on};
ghost use Rattle.cx_program.specs.Handles.{condition_abend_code, after_pop, after_push, choice, choice_by_entry, no_handles, put_entry, put_exit, condition_waits};

use crate::choice::Choice;
use crate::entries::{Exit, Handler, Handling};
use crate::faults::ProgramFault;
use arrayvec::ArrayVec;
use cx_base::Condition;
use cx_ebcdic::Name4;
use std::marker::Model;
use std::mem;

/// How many PUSH HANDLEs a level keeps.
pub(crate) const PUSHES: usize = 16;

/// What a level's program has asked to be done for each condition and on an abend, with what its PUSH HANDLEs keep.
///
/// No call takes memory. Contracts see it as `Handles`: what is asked for now (`active`), and what is kept (`kept`),
/// the last kept first.
///
/// Application Programmer's Reference Manual, SC33-0077, "Exceptional conditions" and "Abnormal Termination Recovery".
#[derive(Drop)]
pub struct HandleTable {
    pub(crate) active: Handling,
    pub(crate) kept: ArrayVec<Handling, PUSHES>,
}

impl Model for HandleTable {
    ghost use Rattle.std.specs.Prelude.{reverse};
    ghost use Rattle.cx_program.specs.Handles.{Handles};

    ghost Value = { Handles };

    ghost view = { λ table. record { active = table.active; kept = reverse table.kept.items } };
}

impl HandleTable {
    /// The handles that a level begins with: no entry, no exit, nothing kept.
    pub fn new() -> HandleTable
        ensures { result ≡ no_handles }
    {
        HandleTable {
            active: Handling::default(),
            kept: ArrayVec::new(),
        }
    }

    /// HANDLE CONDITION with a label: the instruction at that address takes control where a command meets
    /// the condition.
    pub fn set(&mut self, condition: Condition, label: u32)
        ensures { self.new ≡ put_entry self.old condition (Handler.Label label) }
    {
        self.active.entries.put(condition, Handler::Label(label));
    }

    /// IGNORE CONDITION: the program goes on after a command that meets the condition.
    pub fn ignore(&mut self, condition: Condition)
        ensures { self.new ≡ put_entry self.old condition Handler.Ignored }
    {
        self.active.entries.put(condition, Handler::Ignored);
    }

    /// HANDLE CONDITION without a label: the condition has no entry any more.
    pub fn default(&mut self, condition: Condition)
        ensures { self.new ≡ put_entry self.old condition Handler.NoEntry }
    {
        self.active.entries.put(condition, Handler::NoEntry);
    }

    /// HANDLE ABEND LABEL: sets the exit at that address, and turns it on.
    pub fn set_exit(&mut self, label: u32)
        ensures { self.new ≡ put_exit self.old (Exit.On label) }
    {
        self.active.exit = Exit::On(label);
    }

    /// HANDLE ABEND CANCEL: turns the exit off. Without one nothing happens.
    pub fn exit_off(&mut self)
        ensures { self.new ≡ put_exit self.old (turned_off self.old.active.exit) }
    {
        self.active.exit = self.active.exit.turned_off();
    }

    /// HANDLE ABEND RESET: turns the exit on again. Without one nothing happens.
    pub fn exit_on(&mut self)
        ensures { self.new ≡ put_exit self.old (turned_on self.old.active.exit) }
    {
        self.active.exit = self.active.exit.turned_on();
    }

    /// The address of the exit, where there is one and it is on.
    pub fn exit(&self) -> Option<u32>
        ensures { result ≡ label_on self.now.active.exit }
    {
        self.active.exit.label_on()
    }

    /// What is asked for now: the entry of each condition, and the exit, on or off.
    pub fn active(&self) -> &Handling
        ensures { result.now ≡ self.now.active }
    {
        &self.active
    }

    /// How many PUSH HANDLEs keep something, 0 to 16.
    pub fn pushed(&self) -> usize
        ensures value { result ≡ length self.now.kept }
        ensures bound { result ≤ 16 }
    {
        self.kept.len()
    }

    /// What PUSH HANDLEs keep, the first kept first. It takes no memory.
    pub fn kept(&self) -> &[Handling]
        ensures value { result.now ≡ reverse self.now.kept }
        ensures bound { length result.now ≤ 16 }
    {
        self.kept.as_slice()
    }

    /// PUSH HANDLE: keeps the entries and the exit, and begins with none.
    ///
    /// TooDeep comes exactly where sixteen are kept already. Nothing has changed then.
    pub fn push(&mut self) -> Result<(), ProgramFault>
        ensures room { IsOk result ↔ (length self.old.kept < 16) }
        ensures fault { IfErr result (λ fault. fault ≡ ProgramFault.TooDeep) }
        ensures ok { OnOk result (self.new ≡ after_push self.old) }
        ensures err { OnErr result (self.new ≡ self.old) }
    {
        if self.kept.is_full() {
            return Err(ProgramFault::TooDeep);
        }
        let active = mem::take(&mut self.active);
        self.kept.push(active);
        Ok(())
    }

    /// POP HANDLE: puts back the entries and the exit that the last PUSH HANDLE kept.
    ///
    /// NothingPushed comes exactly where nothing is kept. Nothing has changed then.
    pub fn pop(&mut self) -> Result<(), ProgramFault>
        ensures pushed { IsOk result ↔ (0 < length self.old.kept) }
        ensures fault { IfErr result (λ fault. fault ≡ ProgramFault.NothingPushed) }
        ensures ok { OnOk result (after_pop self.old.kept ≡ Some self.new) }
        ensures err { OnErr result (self.new ≡ self.old) }
    {
        self.active = self.kept.pop().ok_or(ProgramFault::NothingPushed)?;
        Ok(())
    }

    /// What is done for a condition that a command met, where neither NOHANDLE nor RESP was given. The condition is
    /// neither NORMAL nor ERROR, which no command meets.
    ///
    /// The entry of the condition itself comes first: its label takes control, or the program goes on. Without one
    /// NOSPACE, NOSTG and ENQBUSY wait; for every other condition ERROR's label takes control, or the program goes on
    /// where ERROR is ignored, or the task abends with the condition's code.
    #[tactic(auto, unfolding(crate::specs::Handles::choice))]
    pub fn choose(&self, condition: Condition) -> Choice
        requires exceptional { condition ≢ Condition.Normal }
        requires not_error { condition ≢ Condition.Error }
        ensures { result ≡ choice self.now.active.entries condition }
    {
        let entries = &self.active.entries;
        match entries.entry_for(condition) {
            Handler::Label(label) => Choice::Label(label),
            Handler::Ignored => Choice::GoOn,
            Handler::NoEntry => without_entry(condition, entries.entry_for(Condition::Error)),
        }
    }
}

/// What is done for a condition without an entry of its own, by ERROR's entry.
fn without_entry(condition: Condition, error: Handler) -> Choice
    requires exceptional { condition ≢ Condition.Normal }
    requires not_error { condition ≢ Condition.Error }
    ensures { result
        ≡ (if condition_waits condition then Choice.Wait
        else choice_by_entry error (Choice.Abend (condition_abend_code condition))) }
{
    match (condition, error) {
        (Condition::Nospace | Condition::Nostg | Condition::Enqbusy, _) => Choice::Wait,
        (_, Handler::Label(label)) => Choice::Label(label),
        (_, Handler::Ignored) => Choice::GoOn,
        (_, Handler::NoEntry) => Choice::Abend(condition_abend_code(condition)),
    }
}

/// The code of the abend that a condition leads to.
#[tactic(auto, using(crate::proofs::HandleLemmas::has_code_or_waits))]
fn condition_abend_code(condition: Condition) -> Name4
    requires exceptional { condition ≢ Condition.Normal }
    requires not_error { condition ≢ Condition.Error }
    requires abends { condition_waits condition ≡ false }
    ensures { result ≡ condition_abend_code condition }
{
    condition.abend_code().unwrap()
}
