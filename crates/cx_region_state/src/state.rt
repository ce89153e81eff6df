//! What tasks share, a terminal without its task, and a task.
ghost use Rattle.std.specs.Prelude.{◌≡◌, ◌≤◌};

use cx_base::List;
use cx_code::Cpu;
use cx_ebcdic::{Aid, Name4, Name8};
use cx_load::Loaded;
use cx_program::LevelStack;
use cx_service::{Enqueues, Queues, Screen};
use cx_storage::Store;
use indexmap::IndexMap;
use std::alloc::Global;
use std::marker::Model;

/// What all tasks share: storage, programs, temporary storage queues, enqueued resources.
#[derive(Drop)]
pub struct Shared<S: Store + Drop> {
    /// The allocator that all of it uses.
    pub alloc: Global,
    /// The store that has all storage.
    pub store: S,
    /// Where each program is, by its name.
    pub programs: IndexMap<Name8, Loaded>,
    /// The temporary storage queues.
    pub queues: Queues,
    /// The resources that tasks own.
    pub enqueues: Enqueues,
}

impl<S: Store + Drop> Model for Shared<S> {
    ghost use Rattle.cx_region_state.specs.State.{SharedState};

    ghost Value = { SharedState };

    ghost view = { λ shared.
        record {
          storage = S.storage shared.store;
          programs = shared.programs.entries;
          queues = shared.queues;
          resources = shared.enqueues;
        } };
}

/// What a terminal's operator sent, with the key that sent it: at most 1,920 bytes.
#[derive(Drop)]
pub struct Input {
    /// The key that sent it.
    pub aid: Aid,
    /// The bytes that it sent, at most 1,920.
    pub bytes: List<u8>,
}

impl Model for Input {
    ghost use Rattle.std.specs.Prelude.{◌≤◌, length};
    ghost use Rattle.cx_region_state.specs.State.{Input as InputState};

    ghost Value = { InputState };

    ghost view = { λ input. record { aid = input.aid; bytes = input.bytes } };

    ghost invariant = { λ input. length input.bytes ≤ 1920 };
}

/// The transaction that a terminal's next key attaches, with the COMMAREA kept for it: at most 32,767 bytes, and none
/// where there is no COMMAREA.
#[derive(Drop)]
pub struct NextTransaction {
    /// The transaction.
    pub tran: Name4,
    /// The bytes of the COMMAREA.
    pub commarea: List<u8>,
}

impl Model for NextTransaction {
    ghost use Rattle.std.specs.Prelude.{◌≤◌, length};
    ghost use Rattle.cx_region_state.specs.State.{NextTransaction as FollowingState};

    ghost Value = { FollowingState };

    ghost view = { λ following. record { tran = following.tran; commarea = following.commarea } };

    ghost invariant = { λ following. length following.commarea ≤ 32767 };
}

/// What is kept of a terminal also while it has no task.
#[derive(Drop)]
pub struct TerminalEntry {
    /// The terminal's position, counted from 1: by it its task owns areas and resources.
    pub slot: u8,
    /// Its screen.
    pub screen: Screen,
    /// The input that is held for its task.
    pub input: Option<Input>,
    /// The transaction that its next key attaches, where a RETURN named one.
    pub following: Option<NextTransaction>,
}

impl Model for TerminalEntry {
    ghost use Rattle.cx_region_state.specs.State.{TerminalEntryState};

    ghost Value = { TerminalEntryState };

    ghost view = { λ terminal_entry.
        record {
          slot = terminal_entry.slot;
          screen = terminal_entry.screen;
          input = terminal_entry.input;
          following = terminal_entry.following;
        } };
}

impl TerminalEntry {
    ghost use Rattle.cx_region_state.specs.State.{fresh_terminal_entry};

    /// A new terminal at a position counted from 1: its screen is blank.
    pub fn new(slot: u8) -> TerminalEntry
        ensures { result ≡ fresh_terminal_entry slot }
    {
        TerminalEntry {
            slot,
            screen: Screen::new(),
            input: None,
            following: None,
        }
    }
}

/// A task from its attaching to its end.
#[derive(Drop)]
pub struct Task {
    /// Its transaction.
    pub tran: Name4,
    /// Its number, 1 to 9,999,999.
    pub number: u32,
    /// The address of its EIB (below 2^24).
    pub eib: u32,
    /// Its program levels, 1 to 16.
    pub levels: Box<LevelStack>,
    /// Its registers, condition code and next address, as its program has them now.
    pub cpu: Cpu,
    /// Whether a command is due: the next half-turn performs it; else it runs instructions.
    pub due: bool,
}

impl Model for Task {
    ghost use Rattle.std.specs.Prelude.{◌<◌, ◌^◌};
    ghost use Rattle.cx_region_state.specs.State.{TaskState};

    ghost Value = { TaskState };

    ghost view = { λ task.
        record {
          tran = task.tran;
          number = task.number;
          eib = task.eib;
          levels = task.levels.value;
          regs = task.cpu.regs;
          cc = task.cpu.cc;
          next = task.cpu.next;
          due = task.due;
        } };

    ghost invariant = { λ task. task.eib < 2 ^ 24 };
}
