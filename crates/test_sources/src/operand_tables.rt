//! What the tests' statements are in: a control section P, a dummy section Q, and base registers.
use crate::symbols::{Row, name, table_of};
use cx_asm_expressions::{FaultKind, SymbolTable, TermFault, Value};
use cx_asm_operands::{Bases, Context, read_using, resolve};
use cx_asm_operations::Operation;
use cx_code::{CodeBytes, encode};
use cx_source::{Stmt, Text};
use std::alloc::Global;

const SYMBOLS: &[Row] = &[
    (b"P", b"P", 0, 1),
    (b"LOOP", b"P", 4, 4),
    (b"X", b"P", 8, 4),
    (b"Y", b"P", 12, 2),
    (b"FIELD", b"P", 16, 256),
    (b"LONG", b"P", 16, 257),
    (b"BELOW", b"P", 40, 4),
    (b"FAR", b"P", 4096, 4),
    (b"Q", b"Q", 0, 1),
    (b"Z", b"Q", 8, 4),
    (b"R3", b"", 3, 1),
];

/// The table of these symbols; an error where one of them isn't defined.
pub(crate) fn table(alloc: Global) -> Result<SymbolTable, TermFault> {
    table_of(alloc, SYMBOLS)
}

/// A place in P.
pub(crate) fn place(number: i128, length: u128) -> Value {
    Value {
        section: name(b"P"),
        number,
        length,
    }
}

/// Puts a USING into force, if one is written.
pub(crate) fn put_in_use(
    alloc: Global,
    symbols: &SymbolTable,
    bases: &mut Bases,
    operand: &[u8],
) -> Result<(), TermFault> {
    if operand.is_empty() {
        return Ok(());
    }
    let given = {
        let c = Context::new(symbols, Some(place(0, 1)), bases, None);
        read_using(alloc, &c, operand)?
    };
    bases.put_in_use(&given);
    Ok(())
}

/// Goes past a DROP.
pub(crate) fn end_use(
    alloc: Global,
    symbols: &SymbolTable,
    bases: &mut Bases,
    operand: &[u8],
) -> Result<Option<FaultKind>, TermFault> {
    let drop = Stmt {
        name: Text::from_slice(alloc, b"")?,
        operation: Text::from_slice(alloc, b"DROP")?,
        operand: Text::from_slice(alloc, operand)?,
    };
    let fault = bases.pass(alloc, symbols, Some(place(0, 1)), &drop)?;
    Ok(fault)
}

/// The bytes of a statement at P+20, whose literal, if it has one, is at P+24 with one byte in each copy.
pub(crate) fn assembled(
    alloc: Global,
    symbols: &SymbolTable,
    bases: &Bases,
    operation: &[u8],
    operand: &[u8],
) -> Result<CodeBytes, TermFault> {
    let Some(operation) = Operation::from_name(operation) else {
        return Err(TermFault::Refused(FaultKind::UnknownOperation));
    };
    let length = match operation.op() {
        Some(op) => op.length() as u128,
        None => 1,
    };
    let c = Context::new(symbols, Some(place(20, length)), bases, Some(place(24, 1)));
    let inst = resolve(alloc, &c, operation, operand)?;
    Ok(encode(&inst))
}
