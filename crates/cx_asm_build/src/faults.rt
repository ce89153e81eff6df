//! Why a source gives no program.

ghost use Rattle.std.specs.Prelude.{◌≡◌, Some};
ghost use Rattle.cx_asm_build.specs.Kinds.{kind_name};

use cx_asm::AsmFault;
use cx_source::SourceFault;
use cx_translate::TransFault;
use std::alloc::{AllocError, AllocFailed};
use std::fmt::{Display, Formatter, Write};
use thiserror::Error;

/// What may be wrong with a source: with its lines, with its EXEC statements, or with what the assembler reads.
/// `SourceFault`, `TransFault` and `AsmFault` say of each when it comes.
#[derive(Clone, Copy, Debug, PartialEq, Eq, Error)]
pub enum SourceKind {
    /// A line has a character without an EBCDIC code in columns 1 to 72.
    BadCharacter,
    /// What begins in column 1 is no name.
    BadName,
    /// A line that continues a statement isn't blank in columns 1 to 15.
    BadContinuation,
    /// A line has more than 80 columns, or comes after the 10,000th.
    TooLong,
    /// There is no END.
    NoEnd,
    /// The words after EXEC aren't CICS and a command.
    UnknownCommand,
    /// A word of an EXEC statement is no option of its command, and no condition that it lists.
    UnknownOption,
    /// A command lacks an option that it can't be without, or lists no condition.
    MissingOption,
    /// An option or a condition occurs twice, or options that exclude each other are given together.
    Conflict,
    /// A command lists more than 16 conditions.
    TooManyConditions,
    /// An argument of an EXEC statement is missing, or isn't as its word asks.
    BadArgument,
    /// The operation isn't in the table of operations.
    UnknownOperation,
    /// A symbol is used that no statement defines.
    UndefinedSymbol,
    /// A symbol is defined that is defined already.
    DuplicateSymbol,
    /// No base register in use reaches an address.
    NoAddressability,
    /// An operand can't be read, or a statement stands where it isn't allowed.
    BadOperand,
    /// A value, a length or a number of copies is outside its limits.
    ValueOutOfRange,
    /// A value is neither absolute nor a place in one section, or no place in the section that it should be in.
    NotRelocatable,
    /// The control section has more than 65,536 bytes.
    TooLarge,
}

impl SourceKind {
    /// The kind's name, as `BadCharacter`. It takes no memory.
    pub fn name(self) -> &'static str
        ensures { result.now ≡ kind_name self }
    {
        match self {
            SourceKind::BadCharacter => "BadCharacter",
            SourceKind::BadName => "BadName",
            SourceKind::BadContinuation => "BadContinuation",
            SourceKind::TooLong => "TooLong",
            SourceKind::NoEnd => "NoEnd",
            SourceKind::UnknownCommand => "UnknownCommand",
            SourceKind::UnknownOption => "UnknownOption",
            SourceKind::MissingOption => "MissingOption",
            SourceKind::Conflict => "Conflict",
            SourceKind::TooManyConditions => "TooManyConditions",
            SourceKind::BadArgument => "BadArgument",
            SourceKind::UnknownOperation => "UnknownOperation",
            SourceKind::UndefinedSymbol => "UndefinedSymbol",
            SourceKind::DuplicateSymbol => "DuplicateSymbol",
            SourceKind::NoAddressability => "NoAddressability",
            SourceKind::BadOperand => "BadOperand",
            SourceKind::ValueOutOfRange => "ValueOutOfRange",
            SourceKind::NotRelocatable => "NotRelocatable",
            SourceKind::TooLarge => "TooLarge",
        }
    }
}

impl Display for SourceKind {
    ghost output = { λ kind. Some (kind_name kind) };

    fn fmt<W: Write>(&self, f: &mut Formatter<W>) -> Result<(), std::fmt::Error> {
        f.write_str(self.name())
    }
}

/// Why a source gives no program.
#[derive(Clone, Copy, Debug, PartialEq, Eq)]
pub enum PrepareFault {
    /// The line of the source with this number, counted from 1, has this fault; of NoEnd it is the one after the last.
    At(usize, SourceKind),
    /// An allocation failed.
    Memory,
}

impl From<SourceFault> for PrepareFault {
    ghost use Rattle.cx_asm_build.specs.Kinds.{of_source};

    ghost from_gives = { λ fault given. given ≡ of_source fault };

    #[tactic(auto, unfolding(crate::specs::Kinds::of_source))]
    fn from(fault: SourceFault) -> PrepareFault {
        match fault {
            SourceFault::BadCharacter(line) => PrepareFault::At(line, SourceKind::BadCharacter),
            SourceFault::BadName(line) => PrepareFault::At(line, SourceKind::BadName),
            SourceFault::BadContinuation(line) => PrepareFault::At(
                line,
                SourceKind::BadContinuation,
            ),
            SourceFault::TooLong(line) => PrepareFault::At(line, SourceKind::TooLong),
            SourceFault::NoEnd(line) => PrepareFault::At(line, SourceKind::NoEnd),
            SourceFault::Memory => PrepareFault::Memory,
        }
    }
}

impl From<TransFault> for PrepareFault {
    ghost use Rattle.cx_asm_build.specs.Kinds.{of_translation};

    ghost from_gives = { λ fault given. given ≡ of_translation fault };

    #[tactic(auto, unfolding(crate::specs::Kinds::of_translation))]
    fn from(fault: TransFault) -> PrepareFault {
        match fault {
            TransFault::UnknownCommand(line) => PrepareFault::At(line, SourceKind::UnknownCommand),
            TransFault::UnknownOption(line) => PrepareFault::At(line, SourceKind::UnknownOption),
            TransFault::MissingOption(line) => PrepareFault::At(line, SourceKind::MissingOption),
            TransFault::Conflict(line) => PrepareFault::At(line, SourceKind::Conflict),
            TransFault::TooManyConditions(line) => PrepareFault::At(
                line,
                SourceKind::TooManyConditions,
            ),
            TransFault::BadArgument(line) => PrepareFault::At(line, SourceKind::BadArgument),
            TransFault::Memory => PrepareFault::Memory,
        }
    }
}

impl From<AsmFault> for PrepareFault {
    ghost use Rattle.cx_asm_build.specs.Kinds.{of_assembly};

    ghost from_gives = { λ fault given. given ≡ of_assembly fault };

    #[tactic(auto, unfolding(crate::specs::Kinds::of_assembly))]
    fn from(fault: AsmFault) -> PrepareFault {
        match fault {
            AsmFault::UnknownOperation(line) => PrepareFault::At(
                line,
                SourceKind::UnknownOperation,
            ),
            AsmFault::UndefinedSymbol(line) => PrepareFault::At(line, SourceKind::UndefinedSymbol),
            AsmFault::DuplicateSymbol(line) => PrepareFault::At(line, SourceKind::DuplicateSymbol),
            AsmFault::NoAddressability(line) => PrepareFault::At(
                line,
                SourceKind::NoAddressability,
            ),
            AsmFault::BadOperand(line) => PrepareFault::At(line, SourceKind::BadOperand),
            AsmFault::ValueOutOfRange(line) => PrepareFault::At(line, SourceKind::ValueOutOfRange),
            AsmFault::NotRelocatable(line) => PrepareFault::At(line, SourceKind::NotRelocatable),
            AsmFault::TooLarge(line) => PrepareFault::At(line, SourceKind::TooLarge),
            AsmFault::Memory => PrepareFault::Memory,
        }
    }
}

impl From<AllocError> for PrepareFault {
    ghost use Rattle.cx_asm_build.specs.declared.faults.PrepareFault.TheVariants.{Memory};

    ghost from_gives = { λ _ fault. fault ≡ Memory };

    fn from(_refused: AllocError) -> PrepareFault {
        PrepareFault::Memory
    }
}
