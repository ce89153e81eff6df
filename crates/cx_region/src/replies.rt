//! Events of a region, and what each is answered.
ghost use Rattle.std.specs.Prelude.{◌≡◌, Some};
ghost use Rattle.cx_region.specs.Replies.{define_fault_name, key_reply_name};
ghost use Rattle.cx_region.specs.declared.replies.DefineFault.TheVariants.{Memory};

use crate::changes::{AlterReply, Change};
use cx_code::Bytes;
use cx_ebcdic::{Aid, Name4, Name8};
use cx_exec::Cpu;
use cx_load::{CheckedImage, LoadFault, Loaded};
use cx_region_state::TurnReply;
use std::alloc::{AllocError, AllocFailed};
use std::fmt::{Display, Formatter, Write};
use thiserror::Error;

/// Why a definition is refused. Where several apply, the first of this order is answered; the region is as before.
#[derive(Clone, Copy, Debug, PartialEq, Eq, Error)]
pub enum DefineFault {
    /// The name is defined already.
    Duplicate,
    /// As many as the region has room for are defined: 64 programs, 64 transactions, 16 terminals.
    Full,
    /// The transaction's program isn't defined.
    NoProgram,
    /// Storage has no place for the program.
    NoRoom,
    /// An allocation failed.
    Memory,
}

impl DefineFault {
    /// The fault's name, as `Duplicate`.
    pub fn name(self) -> &'static str
        ensures { result.now ≡ define_fault_name self }
    {
        match self {
            DefineFault::Duplicate => "Duplicate",
            DefineFault::Full => "Full",
            DefineFault::NoProgram => "NoProgram",
            DefineFault::NoRoom => "NoRoom",
            DefineFault::Memory => "Memory",
        }
    }
}

impl Display for DefineFault {
    ghost output = { λ fault. Some (define_fault_name fault) };

    fn fmt<W: Write>(&self, f: &mut Formatter<W>) -> Result<(), std::fmt::Error> {
        f.write_str(self.name())
    }
}

impl From<AllocError> for DefineFault {
    ghost from_gives = { λ _ fault. fault ≡ Memory };

    fn from(_refused: AllocError) -> DefineFault {
        DefineFault::Memory
    }
}

impl<T: Drop> From<AllocFailed<T>> for DefineFault {
    ghost from_gives = { λ _ fault. fault ≡ Memory };

    fn from(_refused: AllocFailed<T>) -> DefineFault {
        DefineFault::Memory
    }
}

impl From<LoadFault> for DefineFault {
    ghost use Rattle.cx_region.specs.Replies.{fault_from};

    ghost from_gives = { λ load_fault fault. fault ≡ fault_from load_fault };

    fn from(load_fault: LoadFault) -> DefineFault {
        match load_fault {
            LoadFault::NoRoom => DefineFault::NoRoom,
            LoadFault::Memory => DefineFault::Memory,
        }
    }
}

/// What a key is answered. Every answer but Attached and Given leaves the region as it was.
#[derive(Clone, Copy, PartialEq, Eq)]
pub enum KeyReply {
    /// A task was attached, and the input is held for it.
    Attached,
    /// The input is held for the terminal's task.
    Given,
    /// The terminal's task has an input that it hasn't received yet.
    AlreadyHeldInput,
    /// No transaction of that name is defined.
    NoSuchTransaction,
    /// Storage has no place for the task's areas.
    NoStorage,
    /// No terminal of that name is defined.
    NoSuchTerminal,
}

impl KeyReply {
    /// The reply's name, as `Attached`.
    pub fn name(self) -> &'static str
        ensures { result.now ≡ key_reply_name self }
    {
        match self {
            KeyReply::Attached => "Attached",
            KeyReply::Given => "Given",
            KeyReply::AlreadyHeldInput => "AlreadyHeldInput",
            KeyReply::NoSuchTransaction => "NoSuchTransaction",
            KeyReply::NoStorage => "NoStorage",
            KeyReply::NoSuchTerminal => "NoSuchTerminal",
        }
    }
}

/// An event of a region: one call, with what it takes.
#[derive(Drop)]
pub enum Event {
    /// `define_program`: the program's name and its image.
    Program(Name8, CheckedImage),
    /// `define_transaction`: its name, and its program's.
    Transaction(Name4, Name8),
    /// `define_terminal`: its name.
    Terminal(Name4),
    /// `set_clock`: the time as hhmmss, the date as yyddd.
    Clock(u32, u32),
    /// `key`: the terminal, the key, and the bytes that it sends.
    Key(Name4, Aid, Bytes),
    /// `turn`: the terminal.
    Turn(Name4),
    /// `alter`: the terminal, and what is altered of its task.
    Alter(Name4, Change),
}

/// What an event is answered.
#[derive(Clone, Copy, PartialEq, Eq)]
pub enum Reply {
    /// Where the program is, or why it was refused.
    Program(Result<Loaded, DefineFault>),
    /// Whether the transaction was defined.
    Transaction(Result<(), DefineFault>),
    /// Whether the terminal was defined.
    Terminal(Result<(), DefineFault>),
    /// The clock is set.
    Clock,
    /// The key's answer.
    Key(KeyReply),
    /// The turn's answer.
    Turn(TurnReply),
    /// The alteration's answer.
    Alter(AlterReply),
}

/// A run stopped because memory ran out.
#[derive(Clone, Copy, Debug, PartialEq, Eq, Error)]
#[error("out of memory")]
pub struct RunStop {
    /// How many of the events were done; the region is as these left it.
    pub done: usize,
}

/// What can be seen of a live task.
#[derive(Drop)]
pub struct TaskInfo {
    /// Its transaction.
    pub tran: Name4,
    /// The current level's program.
    pub program: Name8,
    /// Its number, 1 to 9,999,999.
    pub number: u32,
    /// How many program levels it has, 1 to 16.
    pub levels: usize,
    /// The address of its EIB.
    pub eib: u32,
    /// The address of the current level's DFHEISTG.
    pub stg: u32,
    /// The length of the current level's DFHEISTG in bytes.
    pub stg_len: u32,
    /// Its registers, condition code and next address.
    pub cpu: Cpu,
    /// Whether a command is due.
    pub due: bool,
}
