//! All that a region keeps, read and put in its place.
ghost use Rattle.std.specs.Prelude.{◌≡◌, ◌<◌, ◌≤◌, ℕ, List, Some, fold, length, map, slice_get, unwrap_or};
ghost use Rattle.std.specs.List.{AllByRecursion};
ghost use Rattle.cx_storage.specs.Storage.{areas_of};
ghost use Rattle.indexmap.specs.IndexMap.{set_value_at};
ghost use Rattle.cx_region.specs.Changes.{HasRoomFor, HaveRoomFor, IsNumberIn, with_changes, with_terminals_made, with_terminal};
ghost use Rattle.cx_region.specs.State.{TerminalState};
ghost use Rattle.cx_region.specs.Sound.{IsSound};

use crate::state::{Region, Terminal};
use cx_ebcdic::{Name4, Name8};
use cx_region_state::{Shared, Task, TerminalEntry};
use cx_service::{Enqueues, Queues};
use cx_storage::Store;
use cx_storage_snapshot::StorageSnapshot;
use indexmap::IndexMap;
use std::marker::Model;

/// All that a region keeps, apart from it: what is put in place of what a region has.
#[derive(Drop)]
pub struct RegionParts<S: Store + Drop> {
    /// What tasks share.
    pub shared: Shared<S>,
    /// The transactions, each with its program's name.
    pub transactions: IndexMap<Name4, Name8>,
    /// The terminals with their names.
    pub terminals: IndexMap<Name4, Terminal>,
    /// The time, hhmmss.
    pub time: u32,
    /// The date, yyddd.
    pub date: u32,
    /// The number of the last task that was attached; 0 before the first.
    pub counter: u32,
}

impl<S: Store + Drop> Model for RegionParts<S> {
    ghost use Rattle.cx_region.specs.State.{RegionState};

    ghost Value = { RegionState };

    ghost view = { λ parts.
        record {
          shared = parts.shared;
          time = parts.time;
          date = parts.date;
          transactions = parts.transactions.entries;
          terminals = parts.terminals.entries;
          counter = parts.counter;
        } };
}

/// A terminal with its name, kept apart from a region, whose state one of a region can be given.
pub trait KeptTerminal {
    ghost use Rattle.std.specs.Prelude.{ℕ, List};
    ghost use Rattle.cx_region.specs.State.{TerminalState};

    /// Its name, and the terminal.
    ghost kept: { Self → List ℕ × TerminalState };

    /// Gives a terminal this state. It takes no memory.
    fn put_over(&self, terminal: &mut Terminal)
        requires { HasRoomFor terminal.old (kept self.now).1 }
        ensures { terminal.new ≡ (kept self.now).1 };
}

/// A terminal that is put in the place of another.
#[derive(Drop)]
pub struct ChangedTerminal {
    /// Its number in the order of the terminals' definition, counted from 0.
    pub number: usize,
    /// The terminal.
    pub terminal: Terminal,
}

/// What is put in the place of some of what a region keeps.
#[derive(Drop)]
pub struct ChangedParts {
    /// The queues, where they change.
    pub queues: Option<Queues>,
    /// The enqueued resources, where they change.
    pub enqueues: Option<Enqueues>,
    /// The terminals that are made anew.
    pub terminals: Vec<ChangedTerminal>,
    /// The time, hhmmss.
    pub time: u32,
    /// The date, yyddd.
    pub date: u32,
    /// The number of the last task that was attached; 0 before the first.
    pub counter: u32,
}

/// Puts what is given in the place of what is there.
fn put_given<T: Drop>(place: &mut T, given: Option<T>)
    ensures { place.new ≡ unwrap_or given place.old }
{
    if let Some(given) = given {
        *place = given;
    }
}

/// Puts terminals in the places of others.
fn put_terminals(terminals: &mut IndexMap<Name4, Terminal>, changes: Vec<ChangedTerminal>)
    requires { AllByRecursion (IsNumberIn terminals.old.entries) changes.items }
    ensures { terminals.new.entries ≡ fold with_terminal terminals.old.entries changes.items }
{
    for change in changes {
        terminals[change.number] = change.terminal;
    }
}

/// Gives a terminal the state of one that is kept.
fn put_one<T: KeptTerminal>(terminals: &mut IndexMap<Name4, Terminal>, i: usize, kept: &T)
    requires within { i < length terminals.old.entries }
    requires room { (one : List ℕ × TerminalState) → slice_get terminals.old.entries i ≡ Some one
        → HasRoomFor one.1 (T.kept kept.now).1 }
    ensures { terminals.new.entries ≡ set_value_at terminals.old.entries i (T.kept kept.now).1 }
{
    kept.put_over(&mut terminals[i]);
}

/// Gives each terminal the state of the one that is kept at its place.
fn put_kept<T: KeptTerminal>(terminals: &mut IndexMap<Name4, Terminal>, kept: &[T])
    requires { HaveRoomFor terminals.old.entries (map T.kept kept.now) }
    ensures { terminals.new.entries ≡ map T.kept kept.now }
{
    for i in 0..kept.len() {
        put_one(terminals, i, &kept[i]);
    }
}

impl Terminal {
    /// A terminal with this task.
    pub fn with_task(entry: TerminalEntry, task: Option<Task>) -> Terminal
        ensures { result ≡ record { entry = entry; task = task } }
    {
        Terminal { entry, task }
    }
}

impl<S: Store + Drop> Region<S> {
    /// The time that tasks attached later are given, hhmmss.
    pub fn time(&self) -> u32
        ensures { result ≡ self.now.time }
    {
        self.time
    }

    /// The date that tasks attached later are given, yyddd.
    pub fn date(&self) -> u32
        ensures { result ≡ self.now.date }
    {
        self.date
    }

    /// The number of the last task that was attached; 0 before the first.
    pub fn counter(&self) -> u32
        ensures value { result ≡ self.now.counter }
        ensures sound { IsSound self.now }
    {
        self.counter
    }

    /// Gives the region another number of its last task, from which those of the tasks that are attached later go on; all
    /// else stays.
    #[doc(hidden)]
    pub fn set_counter(&mut self, counter: u32)
        requires { counter ≤ 9999999 }
        ensures { self.new ≡ record self.old { counter = counter } }
    {
        self.counter = counter;
    }

    /// Puts these parts, which must be sound (`IsSound`), in the place of all that the region keeps, which is dropped.
    /// It takes no memory.
    #[doc(hidden)]
    pub fn put(&mut self, parts: RegionParts<S>)
        requires { IsSound parts }
        ensures { self.new ≡ parts }
    {
        let RegionParts {
            shared,
            transactions,
            terminals,
            time,
            date,
            counter,
        } = parts;
        self.shared = shared;
        self.transactions = transactions;
        self.terminals = terminals;
        self.time = time;
        self.date = date;
        self.counter = counter;
    }

    /// Gives the region the storage of a snapshot, which has just the areas that are there, puts these parts in the place
    /// of those that it keeps, and gives each terminal the state of the one that is kept at its place; what then stands
    /// must be sound (`IsSound`). It takes no memory.
    #[doc(hidden)]
    pub fn put_over<T: KeptTerminal>(
        &mut self,
        storage: &StorageSnapshot,
        kept: &[T],
        parts: ChangedParts,
    )
        requires areas { areas_of self.old.shared.storage ≡ areas_of storage.now }
        requires numbers { AllByRecursion (IsNumberIn self.old.terminals) parts.terminals.items }
        requires room { HaveRoomFor (with_terminals_made self.old parts) (map T.kept kept.now) }
        requires sound { IsSound (with_changes self.old storage.now (map T.kept kept.now) parts) }
        ensures { self.new ≡ with_changes self.old storage.now (map T.kept kept.now) parts }
    {
        let ChangedParts {
            queues,
            enqueues,
            terminals,
            time,
            date,
            counter,
        } = parts;
        storage.write_over(&mut self.shared.store);
        put_given(&mut self.shared.queues, queues);
        put_given(&mut self.shared.enqueues, enqueues);
        put_terminals(&mut self.terminals, terminals);
        put_kept(&mut self.terminals, kept);
        self.time = time;
        self.date = date;
        self.counter = counter;
    }
}
