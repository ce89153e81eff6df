//! A source as its lines and statements, and what may be wrong with one.

ghost use Rattle.std.specs.Prelude.{◌≡◌, IfOk};
ghost use Rattle.cx_source.specs.Faults.{fault_name};

use cx_base::List;
use std::alloc::{AllocError, AllocFailed, Global};
use thiserror::Error;

/// A text as its bytes; a line of a source without its end.
pub type Text = List<u8>;

/// The lines of a source in their order.
pub type Items = List<Item>;

/// A statement in its three fields; what continues it is joined, and remarks are left out (GC33-4010, "Assembler
/// Language Coding Conventions").
#[derive(Drop)]
pub struct Stmt {
    /// The name, empty where there is none.
    pub name: Text,
    /// The operation, empty where the statement's first line has none.
    pub operation: Text,
    /// The operand without its remark, joined over the lines that continue it; of EXEC all that is written after it,
    /// since that has no remark. Empty where there is none.
    pub operand: Text,
}

impl Stmt {
    /// A copy of the statement, with its texts in new memory.
    ///
    /// An error comes only where an allocation failed.
    pub fn copied(&self, alloc: Global) -> Result<Stmt, AllocError>
        ensures { IfOk result (λ copy. copy ≡ self.now) }
    {
        Ok(Stmt {
            name: List::from_slice(alloc, self.name.as_slice())?,
            operation: List::from_slice(alloc, self.operation.as_slice())?,
            operand: List::from_slice(alloc, self.operand.as_slice())?,
        })
    }
}

/// A line of a source, with the statement that begins on it.
#[derive(Drop)]
pub struct Item {
    /// The line's number, from 1.
    pub line: usize,
    /// Columns 1 to 72 without the blanks at their end.
    pub text: Text,
    /// The statement that begins on the line; None on a comment and on a line that continues a statement.
    pub stmt: Option<Stmt>,
}

impl Item {
    /// A copy of the line, with its texts in new memory.
    ///
    /// An error comes only where an allocation failed.
    pub fn copied(&self, alloc: Global) -> Result<Item, AllocError>
        ensures { IfOk result (λ copy. copy ≡ self.now) }
    {
        let stmt = match &self.stmt {
            Some(stmt) => Some(stmt.copied(alloc)?),
            None => None,
        };
        Ok(Item {
            line: self.line,
            text: List::from_slice(alloc, self.text.as_slice())?,
            stmt,
        })
    }
}

/// A source as its lines, with the statements that begin on them.
#[derive(Drop)]
pub struct Source {
    /// Its lines, in order; of a source that was read, up to END's, which is the last.
    pub items: Items,
}

/// Why a source can't be read. The number is the line's, from 1.
#[derive(Clone, Copy, Debug, PartialEq, Eq, Error)]
pub enum SourceFault {
    /// A character without an EBCDIC code in columns 1 to 72.
    #[error("line {0}: {name}", name = self.name())]
    BadCharacter(usize),
    /// What begins in column 1 is no name: 1 to 8 of A to Z, `@ # $` and 0 to 9, the first no digit.
    #[error("line {0}: {name}", name = self.name())]
    BadName(usize),
    /// A line that continues a statement isn't blank in columns 1 to 15.
    #[error("line {0}: {name}", name = self.name())]
    BadContinuation(usize),
    /// More than 80 columns, or a line past the 10,000th.
    #[error("line {0}: {name}", name = self.name())]
    TooLong(usize),
    /// No END; the number is that after the last line's.
    #[error("line {0}: {name}", name = self.name())]
    NoEnd(usize),
    /// An allocation failed.
    #[error("{name}", name = self.name())]
    Memory,
}

impl SourceFault {
    /// The fault's name, as `BadCharacter`.
    pub fn name(self) -> &'static str
        ensures { result.now ≡ fault_name self }
    {
        match self {
            SourceFault::BadCharacter(_) => "BadCharacter",
            SourceFault::BadName(_) => "BadName",
            SourceFault::BadContinuation(_) => "BadContinuation",
            SourceFault::TooLong(_) => "TooLong",
            SourceFault::NoEnd(_) => "NoEnd",
            SourceFault::Memory => "Memory",
        }
    }
}

impl From<AllocError> for SourceFault {
    ghost use Rattle.cx_source.specs.declared.source.SourceFault.TheVariants.{Memory};

    ghost from_gives = { λ _ fault. fault ≡ Memory };

    fn from(_error: AllocError) -> SourceFault {
        SourceFault::Memory
    }
}

impl<T: Drop> From<AllocFailed<T>> for SourceFault {
    ghost use Rattle.cx_source.specs.declared.source.SourceFault.TheVariants.{Memory};

    ghost from_gives = { λ _ fault. fault ≡ Memory };

    fn from(_error: AllocFailed<T>) -> SourceFault {
        SourceFault::Memory
    }
}
