//! What a region keeps.
ghost use Rattle.std.specs.Prelude.{◌≡◌};

use cx_ebcdic::{Name4, Name8};
use cx_region_state::{Shared, Task, TerminalEntry};
use cx_storage::Store;
use indexmap::IndexMap;
use std::alloc::Global;
use std::marker::Model;

/// A terminal with its task, where it has one: its position, its screen, the input held for its task, and what its next
/// key attaches.
#[derive(Drop)]
pub struct Terminal {
    /// What is kept of it also while it has no task.
    pub entry: TerminalEntry,
    /// Its task.
    pub task: Option<Task>,
}

impl Model for Terminal {
    ghost use Rattle.cx_region.specs.State.{TerminalState};

    ghost Value = { TerminalState };

    ghost view = { λ terminal. record { entry = terminal.entry; task = terminal.task } };
}

impl Terminal {
    ghost use Rattle.cx_region.specs.Tables.{fresh_terminal};

    /// A new terminal, at a position counted from 1.
    pub(crate) fn new(slot: u8) -> Terminal
        ensures { result ≡ fresh_terminal slot }
    {
        Terminal {
            entry: TerminalEntry::new(slot),
            task: None,
        }
    }
}

/// A region: programs, queues, resources and storage that tasks share; transactions and terminals; the clock, and the
/// last task's number. Contracts see it as `RegionState`; it is always sound (`IsSound`): areas are disjoint, names
/// distinct, and every limit is kept; a live task's EIB and each level's DFHEISTG are areas of its slot, and a slot
/// without a task owns nothing.
#[derive(Drop)]
pub struct Region<S: Store + Drop> {
    pub(crate) alloc: Global,
    pub(crate) shared: Shared<S>,
    pub(crate) transactions: IndexMap<Name4, Name8>,
    pub(crate) terminals: IndexMap<Name4, Terminal>,
    pub(crate) time: u32,
    pub(crate) date: u32,
    pub(crate) counter: u32,
}

impl<S: Store + Drop> Model for Region<S> {
    ghost use Rattle.cx_region.specs.State.{RegionState};
    ghost use Rattle.cx_region.specs.Sound.{IsSound};

    ghost Value = { RegionState };

    ghost view = { λ r.
        record {
          shared = r.shared;
          time = r.time;
          date = r.date;
          transactions = r.transactions.entries;
          terminals = r.terminals.entries;
          counter = r.counter;
        } };

    ghost invariant = { λ r.
        IsSound (record {
          shared = r.shared;
          time = r.time;
          date = r.date;
          transactions = r.transactions.entries;
          terminals = r.terminals.entries;
          counter = r.counter;
        }) };
}
