//! How a step or a run can end, and what an instruction updates.

use std::marker::Model;

/// The address at which execution stops: the entry to the region. No storage is there.
pub const ENTRY: u32 = 0x800;

/// A program interruption (Principles of Operation, GA22-7000, "Program Interruption"). Of several causes `step` says
/// which is taken.
#[derive(Clone, Copy, PartialEq, Eq)]
pub enum Interruption {
    /// The operation code is in no row of the table of `cx_code`.
    Operation,
    /// The target of an EX is an EX.
    Execute,
    /// A byte of the instruction, of the target of an EX or of an operand is in no area of storage.
    Addressing,
    /// An odd instruction address, or an odd register where an even one is due.
    Specification,
    /// CVB: an invalid decimal digit or sign.
    Data,
    /// A division by zero, a quotient that does not fit a word, or a CVB whose number does not.
    FixedPointDivide,
}

impl Interruption {
    ghost use Rattle.std.specs.Prelude.{◌≡◌};
    ghost use Rattle.cx_exec.specs.Machine.{interruption_code};

    /// The interruption's code: 1 operation, 3 execute, 5 addressing, 6 specification, 7 data,
    /// 9 fixed-point divide.
    pub fn code(self) -> u8
        ensures { result ≡ interruption_code self }
    {
        match self {
            Interruption::Operation => 1,
            Interruption::Execute => 3,
            Interruption::Addressing => 5,
            Interruption::Specification => 6,
            Interruption::Data => 7,
            Interruption::FixedPointDivide => 9,
        }
    }
}

/// That an instruction was performed, or what interrupted it.
pub(crate) type Performed = Result<(), Interruption>;

/// How a step ended.
#[derive(Clone, Copy, PartialEq, Eq)]
pub enum Step {
    /// The instruction was performed.
    Done,
    /// The next address is the entry: nothing was fetched, and nothing changed.
    AtEntry,
    /// The instruction was interrupted, and nothing changed except what its row says.
    Interrupt(Interruption),
}

/// How a run of instructions ended.
#[derive(Clone, Copy, PartialEq, Eq)]
pub enum Halt {
    /// The next address is the entry.
    AtEntry,
    /// An instruction was interrupted; the address is the next one that the processor is left with.
    Interrupt(Interruption, u32),
    /// As many instructions as the limit were performed, and the next address is not the entry.
    Limit,
}

/// What an instruction updates the program-status word to, unless it branches: its length in halfwords (at most 3),
/// which the link word holds, and the address of the next one (below 2^24).
#[derive(Clone, Copy)]
pub struct Updated {
    pub length_code: u8,
    pub address: u32,
}

impl Model for Updated {
    ghost use Rattle.std.specs.Prelude.{◌<◌, ◌≤◌, ◌^◌};
    ghost use Rattle.cx_exec.specs.ProgramStatus.{ProgramStatus};

    ghost Value = { ProgramStatus };

    ghost view = { λ updated. record { length_code = updated.length_code; address = updated.address } };

    ghost invariant = { λ updated. (updated.length_code ≤ 3) × (updated.address < 2 ^ 24) };

    ghost inverse = { λ status. record { length_code = status.length_code; address = status.address } };
}
