//! Where a statement is, and the first fault.

use cx_asm_expressions::FaultKind;
use cx_base::List;
use cx_ebcdic::Name8;

/// Where a statement is; offsets are in bytes.
#[derive(Drop)]
pub struct Place {
    /// The section; None before the first.
    pub section: Option<Name8>,
    /// The offset in the section: of an instruction, of the first item of a DS or DC, of LTORG's pool, and of any other
    /// statement the next offset, unaligned.
    pub offset: u128,
    /// The offsets in the section of the items of a DS or DC, in their order; empty of other statements.
    pub items: List<u128>,
    /// The number of the pool, from 0, that its literals are in, or would be.
    pub pool: usize,
}

/// A line with a faulty statement, and the lowest fault of its statements.
#[derive(Clone, Copy, Debug, PartialEq, Eq)]
pub struct LineFault {
    /// The line's number, from 1.
    pub line: usize,
    /// The lowest fault of its statements.
    pub kind: FaultKind,
}

/// The control section of a source, which its first CSECT or START begins.
#[derive(Clone, Copy)]
pub struct ControlSection {
    /// Its name; eight blanks where a source with faults names none.
    pub name: Name8,
    /// Its length in bytes, with its last literal pool.
    pub length: u128,
}
