//! Calls that take memory: with ample memory each is answered as it should be; a failed allocation is answered as one,
//! and no other answer takes its place. `checks/refuse-tests` refuses each allocation in turn.
use crate::operand_tables::{assembled, end_use, put_in_use, table};
use cx_asm_expressions::{FaultKind, SymbolTable, TermFault};
use cx_asm_operands::Bases;
use std::alloc::{AllocError, Global};
use std::test::Fail;

/// Whether a statement makes these bytes, or has this fault. An error means out of memory.
fn is_assembled(
    alloc: Global,
    symbols: &SymbolTable,
    bases: &Bases,
    (operation, operand): (&[u8], &[u8]),
    wanted: Result<&[u8], FaultKind>,
) -> Result<bool, AllocError> {
    match assembled(alloc, symbols, bases, operation, operand) {
        Ok(made) => Ok(match wanted {
            Ok(bytes) => made.as_slice() == bytes,
            Err(_) => false,
        }),
        Err(TermFault::Refused(found)) => Ok(match wanted {
            Ok(_) => false,
            Err(fault) => found == fault,
        }),
        Err(TermFault::Memory) => Err(AllocError),
    }
}

/// Whether a statement is assembled whose operands have their addresses by P,5,6, and the first its length by X. An
/// error means out of memory.
fn is_addressed(alloc: Global, symbols: &SymbolTable, bases: &Bases) -> Result<bool, AllocError> {
    let bytes = b"\xD2\x03\x50\x08\x60\x00";
    is_assembled(alloc, symbols, bases, (b"MVC", b"X,FAR"), Ok(bytes))
}

/// Whether statements are answered as they should be where P,5,6 is in use, each by itself.
fn answers(alloc: Global, symbols: &SymbolTable, bases: &Bases) -> [Result<bool, AllocError>; 6] {
    [
        is_assembled(
            alloc,
            symbols,
            bases,
            (b"MVC", b"X(4),FAR"),
            Ok(b"\xD2\x03\x50\x08\x60\x00"),
        ),
        is_addressed(alloc, symbols, bases),
        is_assembled(
            alloc,
            symbols,
            bases,
            (b"MVC", b"X(17,NONE),FAR"),
            Err(FaultKind::UndefinedSymbol),
        ),
        is_assembled(
            alloc,
            symbols,
            bases,
            (b"EXEC", b""),
            Err(FaultKind::UnknownOperation),
        ),
        is_assembled(
            alloc,
            symbols,
            bases,
            (b"DC", b"F'1'"),
            Err(FaultKind::UnknownOperation),
        ),
        is_assembled(
            alloc,
            symbols,
            bases,
            (b"LM", b"1,2,=A(NONE)"),
            Err(FaultKind::BadOperand),
        ),
    ]
}

#[test]
fn a_refused_allocation_is_no_other_answer(rt: HostRuntime) {
    let alloc = rt.alloc();
    let symbols = match table(alloc) {
        Ok(symbols) => symbols,
        Err(found) => {
            assert!(rt; found == TermFault::Memory);
            return;
        }
    };
    let mut bases = Bases::new();
    if let Err(found) = put_in_use(alloc, &symbols, &mut bases, b"P,5,6") {
        assert!(rt; found == TermFault::Memory);
        return;
    }
    for answer in answers(alloc, &symbols, &bases) {
        assert!(rt; answer.unwrap_or(true));
    }
    match end_use(alloc, &symbols, &mut bases, b"5,6") {
        Ok(fault) => assert!(rt; fault.is_none()),
        Err(found) => {
            assert!(rt; found == TermFault::Memory);
            assert!(rt; is_addressed(alloc, &symbols, &bases).unwrap_or(true));
        }
    }
}

#[test]
fn ample_memory_does_not_run_out(rt: HostRuntime) -> Result<(), Fail> {
    let alloc = rt.alloc();
    let symbols = table(alloc)?;
    let mut bases = Bases::new();
    put_in_use(alloc, &symbols, &mut bases, b"P,5,6")?;
    for answer in answers(alloc, &symbols, &bases) {
        assert!(rt; answer?);
    }
    assert!(rt; end_use(alloc, &symbols, &mut bases, b"5,6")?.is_none());
    Ok(())
}
