//! Why a source can't be translated.

ghost use Rattle.std.specs.Prelude.{◌≡◌};
ghost use Rattle.cx_translate.specs.Refusals.{refusal_name};

use std::alloc::{AllocError, AllocFailed};
use thiserror::Error;

/// Why a source can't be translated. The number is the line on which the first faulty EXEC statement begins.
///
/// A statement with several faults has the first of these: UnknownCommand, UnknownOption, BadArgument,
/// TooManyConditions, Conflict, MissingOption.
#[derive(Clone, Copy, Debug, PartialEq, Eq, Error)]
pub enum TransFault {
    /// The words after EXEC aren't CICS and a command.
    #[error("line {0}: {name}", name = self.name())]
    UnknownCommand(usize),
    /// A word is no option of the command, and no condition that it lists.
    #[error("line {0}: {name}", name = self.name())]
    UnknownOption(usize),
    /// The command can't be without an option that isn't there, or lists no condition.
    #[error("line {0}: {name}", name = self.name())]
    MissingOption(usize),
    /// An option or a condition occurs twice, or options that exclude each other are given together.
    #[error("line {0}: {name}", name = self.name())]
    Conflict(usize),
    /// A HANDLE CONDITION or IGNORE CONDITION lists more than 16 conditions.
    #[error("line {0}: {name}", name = self.name())]
    TooManyConditions(usize),
    /// An argument is missing, empty, unexpected or not closed, in apostrophes where no name is due, or a name of no or
    /// too many characters; or a `)` closes nothing.
    #[error("line {0}: {name}", name = self.name())]
    BadArgument(usize),
    /// An allocation failed.
    #[error("{name}", name = self.name())]
    Memory,
}

impl TransFault {
    /// The fault's name, as `UnknownCommand`.
    pub fn name(self) -> &'static str
        ensures { result.now ≡ refusal_name self }
    {
        match self {
            TransFault::UnknownCommand(_) => "UnknownCommand",
            TransFault::UnknownOption(_) => "UnknownOption",
            TransFault::MissingOption(_) => "MissingOption",
            TransFault::Conflict(_) => "Conflict",
            TransFault::TooManyConditions(_) => "TooManyConditions",
            TransFault::BadArgument(_) => "BadArgument",
            TransFault::Memory => "Memory",
        }
    }
}

impl From<AllocError> for TransFault {
    ghost use Rattle.cx_translate.specs.declared.faults.TransFault.TheVariants.{Memory};

    ghost from_gives = { λ _ fault. fault ≡ Memory };

    fn from(_error: AllocError) -> TransFault {
        TransFault::Memory
    }
}

impl<T: Drop> From<AllocFailed<T>> for TransFault {
    ghost use Rattle.cx_translate.specs.declared.faults.TransFault.TheVariants.{Memory};

    ghost from_gives = { λ _ fault. fault ≡ Memory };

    fn from(_error: AllocFailed<T>) -> TransFault {
        TransFault::Memory
    }
}
