//! Lists of statements that no source has: several of one line, which need not be adjacent.
use cx_asm::{AsmFault, assemble};
use cx_source::{Item, Items, Source, Stmt, Text};
use std::alloc::{AllocError, Global};
use std::test::Fail;

/// A statement: line, name, operation, operand.
pub(crate) type Row = (usize, &'static [u8], &'static [u8], &'static [u8]);

/// Statements with their lines' numbers, and the fault of all.
#[rattlefmt::skip]
const LISTS: &[(&[Row], AsmFault)] = &[
    (&[(1, b"P", b"CSECT", b""), (5, b"", b"LR", b"16,1"), (3, b"", b"LR", b"1,"), (5, b"", b"LR", b"1,NONE")], AsmFault::UndefinedSymbol(5)),
    (&[(1, b"P", b"CSECT", b""), (5, b"", b"LR", b"16,1"), (5, b"", b"USING", b"8,5"), (3, b"", b"LR", b"1,NONE")], AsmFault::ValueOutOfRange(5)),
    // a line that the first pass refuses has the faults of the first pass alone
    (&[(1, b"P", b"CSECT", b""), (5, b"", b"LR", b"1,NONE"), (5, b"", b"DS", b"F,"), (3, b"", b"LR", b"16,1")], AsmFault::BadOperand(5)),
];

fn item(
    alloc: Global,
    line: usize,
    name: &[u8],
    operation: &[u8],
    operand: &[u8],
) -> Result<Item, AllocError> {
    Ok(Item {
        line,
        text: Text::from_slice(alloc, b"")?,
        stmt: Some(Stmt {
            name: Text::from_slice(alloc, name)?,
            operation: Text::from_slice(alloc, operation)?,
            operand: Text::from_slice(alloc, operand)?,
        }),
    })
}

/// The source that these statements are.
pub(crate) fn source_of(alloc: Global, statements: &[Row]) -> Result<Source, AllocError> {
    let mut items = Vec::new(alloc);
    for &(line, name, operation, operand) in statements {
        items.push(item(alloc, line, name, operation, operand)?)?;
    }
    Ok(Source {
        items: Items::from_vec(items),
    })
}

#[test]
fn statements_of_one_line_count_together(rt: HostRuntime) -> Result<(), Fail> {
    let alloc = rt.alloc();
    for &(statements, fault) in LISTS {
        let found = assemble(alloc, &source_of(alloc, statements)?);
        assert!(rt; found.err() == Some(fault));
    }
    Ok(())
}

/// A source without a section.
const END_ALONE: &[Row] = &[(1, b"", b"END", b"")];

#[test]
fn an_end_without_a_section_enters_at_the_start(rt: HostRuntime) -> Result<(), Fail> {
    let alloc = rt.alloc();
    match assemble(alloc, &source_of(alloc, END_ALONE)?) {
        Ok(made) => assert!(rt; made.image().entry == 0),
        Err(_) => assert!(rt; false),
    }
    Ok(())
}
