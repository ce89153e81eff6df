//! The values that statements give to symbols.

ghost use Rattle.std.specs.Prelude.{IsTrue, IsOk, is_some, ◌≡◌, ◌∷◌, [], map, IfOk, OnOk, Option, List, ℕ, Ok, option_map, pos};
ghost use Rattle.std.specs.Option.{option_or};
ghost use Rattle.cx_asm_expressions.specs.Expressions.{Answers};
ghost use Rattle.cx_asm_expressions.specs.Symbols.{absolute, find_in};
ghost use Rattle.cx_asm_expressions.specs.Names.{symbol_name};
ghost use Rattle.cx_asm_expressions.specs.Weights.{stands_in};
ghost use Rattle.cx_asm_expressions.specs.declared.values.Value.{Value as Worth};
ghost use Rattle.cx_asm_pools.specs.Pools.{cap};
ghost use Rattle.cx_asm_pass1.specs.Given.{aid_rows, is_any_known, value_in_range, location_counter, place_value, register_rows, resumes, row_symbols};

use crate::roles::Role;
use cx_asm_expressions::{FaultKind, SymbolTable, TermFault, Value, symbol_name};
use cx_asm_pools::capped;
use cx_ebcdic::Name8;
use std::alloc::AllocError;

/// The registers' symbols.
pub(crate) const REGISTERS: [(&str, u8); 16] = [
    ("R0", 0),
    ("R1", 1),
    ("R2", 2),
    ("R3", 3),
    ("R4", 4),
    ("R5", 5),
    ("R6", 6),
    ("R7", 7),
    ("R8", 8),
    ("R9", 9),
    ("R10", 10),
    ("R11", 11),
    ("R12", 12),
    ("R13", 13),
    ("R14", 14),
    ("R15", 15),
];

/// The symbols of the attention identifiers.
pub(crate) const AIDS: [(&str, u8); 16] = [
    ("DFHENTER", 0x7D),
    ("DFHCLEAR", 0x6D),
    ("DFHPA1", 0x6C),
    ("DFHPA2", 0x6E),
    ("DFHPF1", 0xF1),
    ("DFHPF2", 0xF2),
    ("DFHPF3", 0xF3),
    ("DFHPF4", 0xF4),
    ("DFHPF5", 0xF5),
    ("DFHPF6", 0xF6),
    ("DFHPF7", 0xF7),
    ("DFHPF8", 0xF8),
    ("DFHPF9", 0xF9),
    ("DFHPF10", 0x7A),
    ("DFHPF11", 0x7B),
    ("DFHPF12", 0x7C),
];

/// A place in a section, with a length attribute.
pub(crate) fn place_value(section: Option<Name8>, offset: u128, length: u128) -> Value
    ensures { result ≡ place_value section offset length }
{
    Value {
        section,
        number: capped(offset) as i128,
        length,
    }
}

/// The value of the location counter at an offset, in bytes, of a section, with this length attribute; None before the
/// first section, where it is nowhere. An offset beyond 2^100 counts as one more than that. It takes no memory.
pub fn location_counter(section: Option<Name8>, offset: u128, length: u128) -> Option<Value>
    ensures { result ≡ location_counter section offset length }
{
    let name = section?;
    Some(place_value(Some(name), offset, length))
}

/// A value of EQU in its range.
pub(crate) fn limited(value: Value) -> Result<Option<Value>, TermFault>
    ensures { Answers (value_in_range (Ok value)) result }
{
    if value.number < -2_147_483_648 || value.number > 4_294_967_295 {
        return Err(TermFault::Refused(FaultKind::ValueOutOfRange));
    }
    Ok(Some(value))
}

/// Whether a section is one of this name.
pub(crate) fn stands_in(name: Name8, section: Option<Name8>) -> bool
    ensures { result ≡ stands_in name section }
{
    match section {
        Some(section) => name == section,
        None => false,
    }
}

/// Whether a statement of this name resumes a section.
pub(crate) fn resumes(
    role: Role,
    name: Name8,
    control: Option<Name8>,
    symbols: &SymbolTable,
) -> bool
    ensures { result ≡ resumes role name control (find_in symbols.now) }
{
    match role {
        Role::Control => stands_in(name, control),
        Role::Dummy => match symbols.get(name) {
            Some(value) => stands_in(name, value.section) && !stands_in(name, control),
            None => false,
        },
        _ => false,
    }
}

/// The symbol of a row.
fn row_symbol(text: &str, number: u8) -> Option<(Name8, Value)>
    ensures { result ≡ option_map (λ name. (name, absolute (pos number))) (symbol_name text.now) }
{
    let name = symbol_name(text.as_bytes())?;
    Some((name, Value::absolute(i128::from(number))))
}

/// Whether the symbol of a row is defined.
fn is_defined(symbols: &SymbolTable, text: &str, number: u8) -> bool
    ensures { result ≡ is_any_known (find_in symbols.now) (row_symbols ((text.now, number) ∷ [])) }
{
    match row_symbol(text, number) {
        Some((name, _)) => symbols.get(name).is_some(),
        None => false,
    }
}

/// Whether a symbol of rows is defined.
pub(crate) fn is_any_defined(symbols: &SymbolTable, rows: &[(&str, u8)]) -> bool
    ensures { result ≡ is_any_known (find_in symbols.now) (row_symbols (map (λ row. (row.0.now, row.1)) rows.now)) }
{
    for row in rows {
        if is_defined(symbols, row.0, row.1) {
            return true;
        }
    }
    false
}

/// Gives a symbol its value, unless it has one.
#[tactic(auto, using(crate::proofs::SymbolLemmas::kept_refused, crate::proofs::SymbolLemmas::defined_new, crate::proofs::SymbolLemmas::unknown_memory))]
pub(crate) fn define(symbols: &mut SymbolTable, name: Name8, value: Value) -> Result<(), AllocError>
    ensures defined { OnOk result ((other : List ℕ)
        → find_in symbols.new other ≡ option_or (find_in symbols.old other) (find_in ((name, value) ∷ []) other)) }
    ensures known { IsTrue (is_some (find_in symbols.old name)) → IsOk result }
{
    match symbols.define(name, value) {
        Ok(()) => Ok(()),
        Err(TermFault::Refused(_)) => Ok(()),
        Err(TermFault::Memory) => Err(AllocError),
    }
}

/// Gives the symbol of a row its value, unless it has one.
fn define_row(symbols: &mut SymbolTable, text: &str, number: u8) -> Result<(), AllocError>
    ensures { OnOk result ((other : List ℕ) → find_in symbols.new other
        ≡ option_or (find_in symbols.old other) (find_in (row_symbols ((text.now, number) ∷ [])) other)) }
{
    let Some((name, value)) = row_symbol(text, number) else {
        return Ok(());
    };
    define(symbols, name, value)?;
    Ok(())
}

/// Gives the symbols of rows their values, those that have none.
pub(crate) fn define_rows(symbols: &mut SymbolTable, rows: &[(&str, u8)]) -> Result<(), AllocError>
    ensures { OnOk result ((other : List ℕ) → let given = row_symbols (map (λ row. (row.0.now, row.1)) rows.now) in
        find_in symbols.new other ≡ option_or (find_in symbols.old other) (find_in given other)) }
{
    for row in rows {
        define_row(symbols, row.0, row.1)?;
    }
    Ok(())
}
