//! Calls that take memory: with ample memory each is answered as it should be; a failed allocation is answered as one,
//! and no other answer takes its place. `checks/refuse-tests` refuses each allocation in turn.
use crate::symbols::{is_number, name, table};
use cx_asm_expressions::{Constant, FaultKind, SymbolTable, TermFault, Value, value_of};
use std::alloc::{AllocError, Global};
use std::test::Fail;

/// Whether an expression has this value, or this fault. An error means out of memory.
fn has_value(
    alloc: Global,
    symbols: &SymbolTable,
    text: &[u8],
    due: Result<i128, FaultKind>,
) -> Result<bool, AllocError> {
    match value_of(alloc, text, symbols, None) {
        Ok(value) => Ok(match due {
            Ok(number) => value == Value::absolute(number),
            Err(_) => false,
        }),
        Err(TermFault::Refused(fault)) => Ok(due == Err(fault)),
        Err(TermFault::Memory) => Err(AllocError),
    }
}

/// Whether a constant has these bytes. An error means out of memory.
fn is_made(
    alloc: Global,
    symbols: &SymbolTable,
    text: &[u8],
    bytes: &[u8],
) -> Result<bool, AllocError> {
    let Ok(item) = Constant::read(text, false) else {
        return Ok(false);
    };
    match item.bytes(alloc, symbols, None, name(b"P")) {
        Ok(copy) => Ok(copy.as_slice() == bytes),
        Err(TermFault::Refused(_)) => Ok(false),
        Err(TermFault::Memory) => Err(AllocError),
    }
}

/// Whether expressions and constants over the tests' symbols are answered as they should be, each by itself.
fn answers(alloc: Global, symbols: &SymbolTable) -> [Result<bool, AllocError>; 7] {
    [
        has_value(alloc, symbols, b"1+2-B'1'", Ok(2)),
        has_value(alloc, symbols, b"E+E", Ok(8_589_934_590)),
        has_value(alloc, symbols, b"X-Z", Err(FaultKind::NotRelocatable)),
        has_value(alloc, symbols, b"X-NONE", Err(FaultKind::UndefinedSymbol)),
        is_made(alloc, symbols, b"CL3'A'", b"\xC1\x40\x40"),
        is_made(
            alloc,
            symbols,
            b"F'1,-1'",
            b"\x00\x00\x00\x01\xFF\xFF\xFF\xFF",
        ),
        is_made(alloc, symbols, b"A(X-Y)", b"\x00\x00\x00\x08"),
    ]
}

/// Whether a new symbol is there just where its definition is no fault.
fn is_defined_or_absent(symbols: &mut SymbolTable) -> bool {
    let Some(new) = name(b"NEW") else {
        return false;
    };
    let defined = symbols.define(new, Value::absolute(7));
    symbols.get(new).is_some() == defined.is_ok()
}

/// Whether a new symbol is defined, and has its value then.
fn defines(symbols: &mut SymbolTable) -> Result<bool, TermFault> {
    let Some(new) = name(b"NEW") else {
        return Ok(false);
    };
    symbols.define(new, Value::absolute(7))?;
    Ok(is_number(symbols, new, 7))
}

#[test]
fn a_refused_allocation_is_no_other_answer(rt: HostRuntime) {
    let alloc = rt.alloc();
    let mut symbols = match table(alloc) {
        Ok(symbols) => symbols,
        Err(found) => {
            assert!(rt; found == TermFault::Memory);
            return;
        }
    };
    for answer in answers(alloc, &symbols) {
        assert!(rt; answer.unwrap_or(true));
    }
    assert!(rt; is_defined_or_absent(&mut symbols));
}

#[test]
fn ample_memory_does_not_run_out(rt: HostRuntime) -> Result<(), Fail> {
    let alloc = rt.alloc();
    let mut symbols = table(alloc)?;
    for answer in answers(alloc, &symbols) {
        assert!(rt; answer?);
    }
    assert!(rt; defines(&mut symbols)?);
    Ok(())
}
