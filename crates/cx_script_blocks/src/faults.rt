//! Why a run of a script ends early.

ghost use Rattle.std.specs.Prelude.{◌≡◌, Some};
ghost use Rattle.cx_script_blocks.specs.Faults.{fault_line};
ghost use Rattle.cx_script_blocks.specs.Status.{status_of};
ghost use Rattle.cx_script_blocks.specs.declared.faults.RunFault.TheVariants.{Memory};

use cx_asm_build::SourceKind;
use std::alloc::{AllocError, AllocFailed};
use std::fmt::{Display, Formatter};
use thiserror::Error;

/// Why a run of a script ends early, or isn't one without a fault. The lines before the fault are done, and their
/// transcript is written. It is shown as the program's line on standard error, a source's with the fault's name.
#[derive(Clone, Copy, Debug, PartialEq, Eq, Error)]
pub enum RunFault {
    /// The line with this number, counted from 1, is no line of a script; or it begins a block that is not ended.
    BadLine(usize),
    /// The line with this number, counted from 1, is the first of the bad looks. It comes where a script has no other
    /// fault: each of its lines was done, and the bad looks were reported in its transcript.
    BadLook(usize),
    /// The line with this number, counted from 1, is a faulty one of a source; of NoEnd it is the line that ends the
    /// block.
    Source(usize, SourceKind),
    /// A read failed.
    Read,
    /// A write failed, or took no byte. What was written is a front of the transcript.
    Write,
    /// An allocation failed.
    Memory,
    /// The script has more than 16,777,216 bytes.
    ReadBound,
}

impl Display for RunFault {
    ghost output = { λ fault. Some (fault_line fault) };

    fn fmt<W: std::fmt::Write>(&self, f: &mut Formatter<W>) -> Result<(), std::fmt::Error> {
        match self {
            RunFault::BadLine(line) => write!(f, "cicsedf: line {line}: BadLine"),
            RunFault::BadLook(line) => write!(f, "cicsedf: line {line}: BadLook"),
            RunFault::Source(line, kind) => write!(f, "cicsedf: line {line}: {kind}"),
            RunFault::Read => f.write_str("cicsedf: read"),
            RunFault::Write => f.write_str("cicsedf: write"),
            RunFault::Memory => f.write_str("cicsedf: memory"),
            RunFault::ReadBound => f.write_str("cicsedf: too much input"),
        }
    }
}

impl From<AllocError> for RunFault {
    ghost from_gives = { λ _ fault. fault ≡ Memory };

    fn from(_refused: AllocError) -> RunFault {
        RunFault::Memory
    }
}

impl<T: Drop> From<AllocFailed<T>> for RunFault {
    ghost from_gives = { λ _ fault. fault ≡ Memory };

    fn from(_refused: AllocFailed<T>) -> RunFault {
        RunFault::Memory
    }
}

/// What is answered of a script whose lines were all done.
#[derive(Clone, Copy, Debug, PartialEq, Eq)]
pub struct Summary {
    /// How many lines it has: those of blocks, comments and empty lines among them.
    pub lines: usize,
}

/// The program's status: 0 without a fault; 1 for a bad line, a bad look or a faulty source; 3 for a read or a write
/// that failed and for a script of more than 16,777,216 bytes; 4 for memory. It takes no memory.
pub fn status(answer: &Result<Summary, RunFault>) -> u8
    ensures { result ≡ status_of answer.now }
{
    match answer {
        Ok(_) => 0,
        Err(RunFault::BadLine(_) | RunFault::BadLook(_) | RunFault::Source(_, _)) => 1,
        Err(RunFault::Read | RunFault::Write | RunFault::ReadBound) => 3,
        Err(RunFault::Memory) => 4,
    }
}
