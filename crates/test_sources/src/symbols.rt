//! The symbols that the tests use: a control section P with X and Y, a dummy section Q with Z, an absolute E.
use cx_asm_expressions::{FaultKind, SymbolTable, TermFault, Value, symbol_name};
use cx_ebcdic::Name8;
use std::alloc::Global;
use std::test::Fail;

/// A symbol: its name, its section, its number, its length attribute.
pub(crate) type Row = (&'static [u8], &'static [u8], i128, u128);

const SYMBOLS: &[Row] = &[
    (b"P", b"P", 0, 1),
    (b"X", b"P", 12, 4),
    (b"Y", b"P", 4, 2),
    (b"Q", b"Q", 0, 1),
    (b"Z", b"Q", 8, 4),
    (b"E", b"", 4_294_967_295, 1),
];

/// The name of a text; None of an empty one.
pub(crate) fn name(text: &[u8]) -> Option<Name8> {
    symbol_name(text)
}

/// Defines a symbol; a text that is no name is a bad operand.
fn define(table: &mut SymbolTable, text: &[u8], value: Value) -> Result<(), TermFault> {
    match name(text) {
        Some(found) => table.define(found, value),
        None => Err(TermFault::Refused(FaultKind::BadOperand)),
    }
}

/// The table of these symbols; an error where one of them isn't defined.
pub(crate) fn table_of(alloc: Global, symbols: &[Row]) -> Result<SymbolTable, TermFault> {
    let mut table = SymbolTable::new(alloc);
    for &(text, section, number, length) in symbols {
        let value = Value {
            section: name(section),
            number,
            length,
        };
        define(&mut table, text, value)?;
    }
    Ok(table)
}

/// The table of the tests' symbols; an error where one of them isn't defined.
pub(crate) fn table(alloc: Global) -> Result<SymbolTable, TermFault> {
    table_of(alloc, SYMBOLS)
}

/// Whether a symbol has this number as its value.
pub(crate) fn is_number(table: &SymbolTable, name: Name8, number: i128) -> bool {
    match table.get(name) {
        Some(value) => value == Value::absolute(number),
        None => false,
    }
}

/// Whether a symbol is refused, as one that is defined.
fn is_duplicate(table: &mut SymbolTable, name: Name8, number: i128) -> bool {
    match table.define(name, Value::absolute(number)) {
        Ok(()) => false,
        Err(fault) => fault == TermFault::Refused(FaultKind::DuplicateSymbol),
    }
}

/// Whether a name without a value gets one, and keeps it where it is defined again, which is refused.
fn is_defined_once(table: &mut SymbolTable, one: Name8) -> Result<bool, TermFault> {
    let is_new = table.get(one).is_none();
    table.define(one, Value::absolute(1))?;
    Ok(
        is_new
            && is_number(table, one, 1)
            && is_duplicate(table, one, 2)
            && is_number(table, one, 1),
    )
}

#[test]
fn a_symbol_is_defined_once(rt: HostRuntime) -> Result<(), Fail> {
    let mut symbols = SymbolTable::new(rt.alloc());
    match name(b"ONE@#$12") {
        Some(one) => assert!(rt; is_defined_once(&mut symbols, one)?),
        None => assert!(rt; false),
    }
    Ok(())
}

#[test]
fn names_have_at_most_eight_characters(rt: HostRuntime) {
    assert!(rt; name(b"ABCDEFGH").is_some());
    assert!(rt; name(b"ABCDEFGHI").is_none());
    assert!(rt; name(b"1A").is_none());
    assert!(rt; name(b"").is_none());
    assert!(rt; name(b"A.B").is_none());
}

#[test]
fn faults_have_numbers_and_names(rt: HostRuntime) {
    assert!(rt; FaultKind::UnknownOperation.number() == 1);
    assert!(rt; FaultKind::TooLarge.number() == 8);
    assert!(rt; FaultKind::NotRelocatable.name() == "NotRelocatable");
}
