//! The symbols of a source, each with the line that defines it.
ghost use Rattle.std.specs.Prelude.{◌≡◌, ◌∷◌, [], IfOk, OnOk, map, reverse};
ghost use Rattle.cx_asm_expressions.specs.Symbols.{find_in};
ghost use Rattle.cx_asm_pass1.specs.PassState.{name_in, role_in};
ghost use Rattle.cx_look_symbols.specs.Parts.Rows.{names_among, names_given, table_after, with_name, with_names, with_stmt};

use cx_asm_expressions::{SymbolTable, Value, symbol_name};
use cx_asm_pass1::Role;
use cx_ebcdic::Name8;
use cx_source::{Item, Stmt};
use indexmap::IndexMap;
use std::alloc::{AllocError, Global};

/// The registers' symbols, which DFHREGS defines.
const REGISTERS: [&str; 16] = [
    "R0", "R1", "R2", "R3", "R4", "R5", "R6", "R7", "R8", "R9", "R10", "R11", "R12", "R13", "R14",
    "R15",
];

/// The symbols of the attention identifiers, which the member DFHAID defines.
const AIDS: [&str; 16] = [
    "DFHENTER", "DFHCLEAR", "DFHPA1", "DFHPA2", "DFHPF1", "DFHPF2", "DFHPF3", "DFHPF4", "DFHPF5",
    "DFHPF6", "DFHPF7", "DFHPF8", "DFHPF9", "DFHPF10", "DFHPF11", "DFHPF12",
];

/// What a name of a source is: its value, and where it is defined.
#[derive(Clone, Copy)]
pub struct Symbol {
    /// Its value, as the assembler has it.
    pub value: Value,
    /// The number of the line whose statement defines it, from 1.
    pub line: usize,
}

/// Appends a symbol, which a line's statement names, to others, where it isn't among them and has a value.
#[tactic(auto, unfolding(crate::specs::Parts::Rows::with_name))]
fn put_name(
    rows: &mut IndexMap<Name8, Symbol>,
    symbols: &SymbolTable,
    line: usize,
    name: Name8,
) -> Result<(), AllocError>
    ensures { OnOk result (rows.new.entries ≡ with_name (find_in symbols.now) line rows.old.entries name) }
{
    if rows.contains_key(&name) {
        return Ok(());
    }
    let Some(value) = symbols.get(name) else {
        return Ok(());
    };
    rows.insert(name, Symbol { value, line })?;
    Ok(())
}

/// Appends to others the symbol that a text is.
fn put_text(
    rows: &mut IndexMap<Name8, Symbol>,
    symbols: &SymbolTable,
    line: usize,
    text: &str,
) -> Result<(), AllocError>
    ensures { let names = names_among (text.now ∷ []) in
        OnOk result (rows.new.entries ≡ with_names (find_in symbols.now) line rows.old.entries names) }
{
    let Some(name) = symbol_name(text.as_bytes()) else {
        return Ok(());
    };
    put_name(rows, symbols, line, name)?;
    Ok(())
}

/// Appends to others the symbols that texts are.
fn put_texts(
    rows: &mut IndexMap<Name8, Symbol>,
    symbols: &SymbolTable,
    line: usize,
    texts: &[&str],
) -> Result<(), AllocError>
    ensures { OnOk result (rows.new.entries
        ≡ with_names (find_in symbols.now) line rows.old.entries (names_among (map (λ text. text.now) texts.now))) }
{
    for text in texts {
        put_text(rows, symbols, line, text)?;
    }
    Ok(())
}

/// Appends to others the symbols that a statement names.
fn put_stmt(
    rows: &mut IndexMap<Name8, Symbol>,
    symbols: &SymbolTable,
    line: usize,
    stmt: &Stmt,
) -> Result<(), AllocError>
    ensures { OnOk result (rows.new.entries ≡ with_names (find_in symbols.now) line rows.old.entries
        (names_given (role_in stmt.now) (name_in stmt.now) stmt.now.operand)) }
{
    match Role::of(stmt.operation.as_slice()) {
        Role::Registers => {
            put_texts(rows, symbols, line, &REGISTERS)?;
            Ok(())
        }
        Role::Member => {
            if stmt.operand.as_slice() == b"DFHAID".as_slice() {
                put_texts(rows, symbols, line, &AIDS)?;
            }
            Ok(())
        }
        Role::Nothing => Ok(()),
        _ => {
            let Some(name) = symbol_name(stmt.name.as_slice()) else {
                return Ok(());
            };
            put_name(rows, symbols, line, name)?;
            Ok(())
        }
    }
}

/// Appends to others the symbols that a line's statement names.
fn put_line(
    rows: &mut IndexMap<Name8, Symbol>,
    symbols: &SymbolTable,
    item: &Item,
) -> Result<(), AllocError>
    ensures { let find = find_in symbols.now in
        OnOk result (rows.new.entries ≡ with_stmt find item.now.line item.now.stmt rows.old.entries) }
{
    if let Some(stmt) = &item.stmt {
        put_stmt(rows, symbols, item.line, stmt)?;
    }
    Ok(())
}

/// The symbols of lines in their order, by the table of their values.
pub(crate) fn symbols_of(
    alloc: Global,
    items: &[Item],
    symbols: &SymbolTable,
) -> Result<IndexMap<Name8, Symbol>, AllocError>
    ensures { IfOk result (λ rows. rows.entries ≡ table_after (find_in symbols.now) (reverse items.now)) }
{
    let mut rows = IndexMap::new(alloc);
    for item in items {
        put_line(&mut rows, symbols, item)?;
    }
    Ok(rows)
}
