//! What may be wrong with a statement.

ghost use Rattle.std.specs.Prelude.{◌≡◌, codes};
ghost use Rattle.cx_asm_expressions.specs.Faults.{fault_row, lower, lower_of};
ghost use Rattle.cx_asm_expressions.specs.declared.faults.TermFault.TheVariants.{Memory};

use std::alloc::{AllocError, AllocFailed};
use thiserror::Error;

/// A kind of fault. Of several faults the one with the lowest number is answered.
#[derive(Clone, Copy, Debug, PartialEq, Eq, Error)]
pub enum FaultKind {
    /// The operation isn't in the table of operations.
    #[error("UnknownOperation")]
    UnknownOperation,
    /// A symbol that no statement defines.
    #[error("UndefinedSymbol")]
    UndefinedSymbol,
    /// A symbol that is defined already.
    #[error("DuplicateSymbol")]
    DuplicateSymbol,
    /// An address that no base register reaches.
    #[error("NoAddressability")]
    NoAddressability,
    /// An operand that can't be read, or a statement where it isn't allowed.
    #[error("BadOperand")]
    BadOperand,
    /// A value, a length or a number of copies outside its limits.
    #[error("ValueOutOfRange")]
    ValueOutOfRange,
    /// A value that is neither absolute nor a place in one section, or no place in the section that it should be in.
    #[error("NotRelocatable")]
    NotRelocatable,
    /// A control section of more than 65,536 bytes.
    #[error("TooLarge")]
    TooLarge,
}

impl FaultKind {
    /// Its number: 1 of UnknownOperation to 8 of TooLarge, in the order in which the kinds are declared.
    pub fn number(self) -> u8
        ensures { result ≡ (fault_row self).0 }
    {
        match self {
            FaultKind::UnknownOperation => 1,
            FaultKind::UndefinedSymbol => 2,
            FaultKind::DuplicateSymbol => 3,
            FaultKind::NoAddressability => 4,
            FaultKind::BadOperand => 5,
            FaultKind::ValueOutOfRange => 6,
            FaultKind::NotRelocatable => 7,
            FaultKind::TooLarge => 8,
        }
    }

    /// Its name, as `BadOperand`.
    pub fn name(self) -> &'static str
        ensures { result.now ≡ (fault_row self).1 }
    {
        match self {
            FaultKind::UnknownOperation => "UnknownOperation",
            FaultKind::UndefinedSymbol => "UndefinedSymbol",
            FaultKind::DuplicateSymbol => "DuplicateSymbol",
            FaultKind::NoAddressability => "NoAddressability",
            FaultKind::BadOperand => "BadOperand",
            FaultKind::ValueOutOfRange => "ValueOutOfRange",
            FaultKind::NotRelocatable => "NotRelocatable",
            FaultKind::TooLarge => "TooLarge",
        }
    }
}

/// The one of two kinds with the lower number. It takes no memory.
pub fn lower_of(one: FaultKind, other: FaultKind) -> FaultKind
    ensures { result ≡ lower_of one other }
{
    if one.number() <= other.number() {
        one
    } else {
        other
    }
}

/// The one of two faults with the lower number; the other where one isn't there, None where neither is. It takes no
/// memory.
pub fn lower(one: Option<FaultKind>, other: Option<FaultKind>) -> Option<FaultKind>
    ensures { result ≡ lower one other }
{
    match (one, other) {
        (None, _) => other,
        (_, None) => one,
        (Some(first), Some(second)) => Some(lower_of(first, second)),
    }
}

/// Why a call that may take memory gives no value: a fault of what it reads, or a failed allocation.
#[derive(Clone, Copy, Debug, PartialEq, Eq, Error)]
pub enum TermFault {
    /// What is read has this fault.
    #[error("{0}")]
    Refused(FaultKind),
    /// An allocation failed.
    #[error("out of memory")]
    Memory,
}

impl From<AllocError> for TermFault {
    ghost from_gives = { λ _ fault. fault ≡ Memory };

    fn from(_error: AllocError) -> TermFault {
        TermFault::Memory
    }
}

impl<T: Drop> From<AllocFailed<T>> for TermFault {
    ghost from_gives = { λ _ fault. fault ≡ Memory };

    fn from(_failed: AllocFailed<T>) -> TermFault {
        TermFault::Memory
    }
}
