//! Why a source is refused.

ghost use Rattle.std.specs.Prelude.{◌≡◌};
ghost use Rattle.cx_asm.specs.Assembly.{fault_at};

use cx_asm_expressions::FaultKind;
use cx_asm_pass1::LineFault;
use std::alloc::{AllocError, AllocFailed};
use thiserror::Error;

/// Why a source isn't assembled. The number is the line's, from 1: of the first faulty statement's line the lowest
/// fault of all its statements.
#[derive(Clone, Copy, Debug, PartialEq, Eq, Error)]
pub enum AsmFault {
    /// The operation isn't in the table of operations.
    #[error("line {0}: UnknownOperation")]
    UnknownOperation(usize),
    /// A symbol that no statement defines.
    #[error("line {0}: UndefinedSymbol")]
    UndefinedSymbol(usize),
    /// A symbol that is defined already.
    #[error("line {0}: DuplicateSymbol")]
    DuplicateSymbol(usize),
    /// An address that no base register reaches.
    #[error("line {0}: NoAddressability")]
    NoAddressability(usize),
    /// An operand that can't be read, or a statement where it isn't allowed.
    #[error("line {0}: BadOperand")]
    BadOperand(usize),
    /// A value, a length or a number of copies outside its limits.
    #[error("line {0}: ValueOutOfRange")]
    ValueOutOfRange(usize),
    /// A value that is neither absolute nor a place in one section, or no place in the section that it should be in.
    #[error("line {0}: NotRelocatable")]
    NotRelocatable(usize),
    /// A control section of more than 65,536 bytes; the line is END's, and the source's last where there is no END.
    #[error("line {0}: TooLarge")]
    TooLarge(usize),
    /// An allocation failed.
    #[error("out of memory")]
    Memory,
}

impl From<AllocError> for AsmFault {
    ghost use Rattle.cx_asm.specs.declared.faults.AsmFault.TheVariants.{Memory};

    ghost from_gives = { λ _ fault. fault ≡ Memory };

    fn from(_error: AllocError) -> AsmFault {
        AsmFault::Memory
    }
}

impl<T: Drop> From<AllocFailed<T>> for AsmFault {
    ghost use Rattle.cx_asm.specs.declared.faults.AsmFault.TheVariants.{Memory};

    ghost from_gives = { λ _ fault. fault ≡ Memory };

    fn from(_failed: AllocFailed<T>) -> AsmFault {
        AsmFault::Memory
    }
}

/// The fault of a source whose first faulty line has this one: of its kind, with its line. It takes no memory.
pub fn fault_at(first: LineFault) -> AsmFault
    ensures { result ≡ fault_at first }
{
    let line = first.line;
    match first.kind {
        FaultKind::UnknownOperation => AsmFault::UnknownOperation(line),
        FaultKind::UndefinedSymbol => AsmFault::UndefinedSymbol(line),
        FaultKind::DuplicateSymbol => AsmFault::DuplicateSymbol(line),
        FaultKind::NoAddressability => AsmFault::NoAddressability(line),
        FaultKind::BadOperand => AsmFault::BadOperand(line),
        FaultKind::ValueOutOfRange => AsmFault::ValueOutOfRange(line),
        FaultKind::NotRelocatable => AsmFault::NotRelocatable(line),
        FaultKind::TooLarge => AsmFault::TooLarge(line),
    }
}
