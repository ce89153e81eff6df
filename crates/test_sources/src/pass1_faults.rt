//! Which lists of statements are refused, at which line, and as what. Sources are tested by scripts.
use crate::item_lists::{Row, source_of};
use cx_asm_expressions::FaultKind;
use cx_asm_pass1::place_all;
use std::alloc::{AllocError, Global};
use std::test::Fail;

/// Lists of statements made by hand, with the line of the fault and its kind.
#[rattlefmt::skip]
const LISTS: &[(&[Row], usize, FaultKind)] = &[
    // statements of one line count together, wherever they are
    (&[(7, b"", b"DS", b"F"), (3, b"", b"NOTHING", b""), (7, b"E", b"EQU", b"NONE")], 7, FaultKind::UndefinedSymbol),
    (&[(7, b"P", b"CSECT", b""), (3, b"NINELONGS", b"DS", b"F"), (3, b"", b"NOTHING", b"")], 3, FaultKind::UnknownOperation),
    (&[(1, b"1A", b"CSECT", b""), (2, b"", b"END", b""), (1, b"", b"END", b"")], 1, FaultKind::BadOperand),
    (&[(1, b"", b"END", b""), (2, b"", b"END", b""), (0, b"", b"", b"")], 0, FaultKind::UnknownOperation),
    // an EXEC statement that wasn't translated
    (&[(1, b"P", b"CSECT", b""), (2, b"", b"EXEC", b"CICS RETURN"), (3, b"", b"END", b"")], 2, FaultKind::UnknownOperation),
];

/// Whether the first pass refuses a list of statements at this line, and as this.
fn is_refused(
    alloc: Global,
    statements: &[Row],
    line: usize,
    kind: FaultKind,
) -> Result<bool, AllocError> {
    match place_all(alloc, &source_of(alloc, statements)?)? {
        Err(first) => Ok(first.line == line && first.kind == kind),
        Ok(_) => Ok(false),
    }
}

#[test]
fn lists_are_refused_so(rt: HostRuntime) -> Result<(), Fail> {
    for &(statements, line, kind) in LISTS {
        assert!(rt; is_refused(rt.alloc(), statements, line, kind)?);
    }
    Ok(())
}
