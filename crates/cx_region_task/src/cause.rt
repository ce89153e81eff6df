//! Why a task abends.
use cx_base::{Abend, Command, Condition};
use cx_exec::Interruption;

/// Why a task abends.
#[derive(Clone, Copy)]
pub enum Cause {
    /// An instruction was interrupted: ASRA.
    Interrupted(Interruption),
    /// A half-turn did 65,536 instructions, and no command came: AICA.
    Limit,
    /// A command is refused with that abend: by its argument list, by what it reads or writes, or by its row.
    Refused(Abend),
    /// A command met that condition, and nothing handled it: the abend has the condition's code.
    Met(Condition),
    /// The program asked for it, by ABEND.
    Asked,
}

/// Why a task abends, and what it had then: before an exit took the abend, or the task ended. Of a command it is what
/// the task had when the command was due; the address of the argument list is in bits 8 to 31 of register 1.
#[derive(Clone, Copy)]
pub struct AbendRecord {
    /// Why it abends.
    pub cause: Cause,
    /// The command that was due; None where none was, or its argument list can't be read.
    pub command: Option<Command>,
    /// Registers 0 to 15.
    pub regs: [u32; 16],
    /// The condition code, 0 to 3.
    pub cc: u8,
    /// The next address: that of the instruction that was interrupted, or would have come next.
    pub next: u32,
    /// The six bytes from the next address on; None for each that is in no area.
    pub bytes: [Option<u8>; 6],
}
