//! A terminal with its task, kept apart from its region.
ghost use Rattle.std.specs.Prelude.{◌≡◌, ◌↔◌, IsTrue, IsSome, IfOk};
ghost use Rattle.cx_region.specs.Changes.{HasRoomFor};
ghost use Rattle.std.specs.Option.{option_copied};
ghost use Rattle.cx_region_snapshot.specs.Hash.{hash_with_task};

use crate::task::TaskSnapshot;
use cx_base::{Replica, Same, hash_with, share, share_replica};
use cx_ebcdic::Name4;
use cx_region::{Input, KeptTerminal, NextTransaction, Task, Terminal, TerminalEntry};
use cx_service::Screen;
use std::alloc::{AllocError, Global};
use std::marker::Model;
use std::rc::Rc;

/// A terminal with its name. What is the same in two snapshots can be shared by them.
#[derive(Drop)]
pub struct TerminalSnapshot {
    name: Name4,
    slot: u8,
    screen: Rc<Screen>,
    input: Rc<Option<Input>>,
    following: Rc<Option<NextTransaction>>,
    task: Rc<Option<TaskSnapshot>>,
}

impl Model for TerminalSnapshot {
    ghost use Rattle.std.specs.Prelude.{ℕ, List};
    ghost use Rattle.cx_region.specs.State.{TerminalState};

    ghost Value = { List ℕ × TerminalState };

    ghost view = { λ terminal. (
      terminal.name,
      record {
        entry = record {
          slot = terminal.slot;
          screen = terminal.screen.value;
          input = terminal.input.value;
          following = terminal.following.value;
        };
        task = terminal.task.value;
      },
    ) };
}

/// The task of a terminal, kept apart.
fn task_of(alloc: Global, task: Option<&Task>) -> Result<Option<TaskSnapshot>, AllocError>
    ensures { IfOk result (λ snapshot. snapshot ≡ option_copied task.entry) }
{
    match task {
        Some(task) => Ok(Some(TaskSnapshot::take(alloc, task)?)),
        None => Ok(None),
    }
}

/// A task that is one kept apart, where there is one.
fn made_again(alloc: Global, task: &Option<TaskSnapshot>) -> Result<Option<Task>, AllocError>
    ensures { IfOk result (λ made. made ≡ task.now) }
{
    match task {
        Some(task) => Ok(Some(task.task(alloc)?)),
        None => Ok(None),
    }
}

/// Gives a task, which is there where one is kept, the state of that; else it ends.
fn put_task(kept: &Option<TaskSnapshot>, there: &mut Option<Task>)
    requires { IsSome kept.now → IsSome there.old }
    ensures { there.new ≡ kept.now }
{
    let Some(kept) = kept else {
        *there = None;
        return;
    };
    if let Some(task) = there {
        kept.put_over(task);
    }
}

/// Gives a screen the state of one that is kept.
fn put_screen(kept: &Screen, there: &mut Screen)
    ensures { there.new ≡ kept.now }
{
    if !kept.is_same(there) {
        *there = *kept;
    }
}

/// The hash with a task, where there is one.
fn hash_with_task(before: u64, task: &Option<TaskSnapshot>) -> u64
    ensures { result ≡ hash_with_task before task.now }
{
    match task {
        Some(task) => task.hash(before),
        None => hash_with(before, 0),
    }
}

impl TerminalSnapshot {
    /// A terminal, kept apart: what is the same as in an earlier snapshot is shared with it. The task is copied first
    /// and then compared, so that its copy takes memory for the time of the call even where the earlier one is shared.
    pub(crate) fn take(
        alloc: Global,
        name: Name4,
        terminal: &Terminal,
        earlier: Option<&TerminalSnapshot>,
    ) -> Result<TerminalSnapshot, AllocError>
        ensures { IfOk result (λ snapshot. snapshot ≡ (name, terminal.now)) }
    {
        let entry = terminal.terminal_entry();
        let task = task_of(alloc, terminal.task())?;
        Ok(TerminalSnapshot {
            name,
            slot: entry.slot,
            screen: share_replica(alloc, &entry.screen, earlier.map(|earlier| &earlier.screen))?,
            input: share_replica(alloc, &entry.input, earlier.map(|earlier| &earlier.input))?,
            following: share_replica(
                alloc,
                &entry.following,
                earlier.map(|earlier| &earlier.following),
            )?,
            task: share(alloc, task, earlier.map(|earlier| &earlier.task))?,
        })
    }

    /// Its name.
    pub(crate) fn name(&self) -> Name4
        ensures { result ≡ self.now.0 }
    {
        self.name
    }

    /// A terminal that is this one.
    pub(crate) fn terminal(&self, alloc: Global) -> Result<Terminal, AllocError>
        ensures { IfOk result (λ terminal. terminal ≡ self.now.1) }
    {
        let task = made_again(alloc, &self.task)?;
        let terminal_entry = TerminalEntry {
            slot: self.slot,
            screen: *self.screen,
            input: self.input.replica(alloc)?,
            following: self.following.replica(alloc)?,
        };
        Ok(Terminal::with_task(terminal_entry, task))
    }

    /// Whether a terminal can be given this state without memory.
    pub(crate) fn fits(&self, there: &Terminal) -> bool
        ensures { IsTrue result ↔ HasRoomFor there.now self.now.1 }
    {
        self.input.is_same(&there.entry.input)
            && self.following.is_same(&there.entry.following)
            && (self.task.is_none() || there.task.is_some())
    }

    /// The hash with its task.
    pub(crate) fn hash(&self, before: u64) -> u64
        ensures { result ≡ hash_with_task before self.now.1.task }
    {
        hash_with_task(before, &self.task)
    }
}

impl KeptTerminal for TerminalSnapshot {
    ghost kept = { λ terminal. terminal };

    fn put_over(&self, terminal: &mut Terminal) {
        terminal.entry.slot = self.slot;
        put_screen(&self.screen, &mut terminal.entry.screen);
        put_task(&self.task, &mut terminal.task);
    }
}

impl Same for TerminalSnapshot {
    fn is_same(&self, other: &Self) -> bool {
        self.name.is_same(&other.name)
            && self.slot == other.slot
            && self.task.is_same(&other.task)
            && self.input.is_same(&other.input)
            && self.following.is_same(&other.following)
            && self.screen.is_same(&other.screen)
    }
}
