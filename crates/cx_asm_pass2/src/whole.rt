//! What is known by the whole source, and what a statement's operand is read by.

ghost use Rattle.std.specs.Prelude.{◌≡◌, Err, IfOk, [], false, option_map, unwrap_or};
ghost use Rattle.std.specs.Option.{option_copied};
ghost use Rattle.cx_asm_expressions.specs.Expressions.{Answers};
ghost use Rattle.cx_asm_expressions.specs.Items.{constant_in};
ghost use Rattle.cx_asm_expressions.specs.declared.faults.FaultKind.{FaultKind};
ghost use Rattle.cx_asm_expressions.specs.declared.faults.TermFault.TheVariants.{Refused};
ghost use Rattle.cx_asm_pass1.specs.Layout.{item_length};
ghost use Rattle.cx_asm_pass2.specs.Whole.{counter_of, item_made, literal_of, literal_place, own_length, pool_of, whole_by};

use crate::statements::Statement;
use cx_asm_expressions::{Constant, ConstantBytes, TermFault, Value};
use cx_asm_operands::literal_in;
use cx_asm_pass1::{Places, Role, location_counter};
use cx_asm_pools::{Pool, literal_text};
use cx_ebcdic::Name8;
use std::alloc::{AllocError, Global};

/// The name of the control section; None where there is none. It takes no memory.
pub fn control_name(places: &Places<'_>) -> Option<Name8>
    ensures { result ≡ (whole_by places.now).control }
{
    match places.control {
        Some(control) => Some(control.name),
        None => None,
    }
}

/// The length attribute of `*`.
fn own_length(role: Role) -> u128
    ensures { result ≡ own_length role }
{
    match role {
        Role::Instruction(size) => size as u128,
        _ => 1,
    }
}

/// The value of the location counter for a statement: its place, with the length of an instruction as the length
/// attribute, 1 of another statement; None before the first section. It takes no memory.
pub fn counter_of(statement: &Statement<'_>) -> Option<Value>
    ensures { result ≡ counter_of statement.now }
{
    let place = statement.place();
    location_counter(place.section, place.offset, own_length(statement.role()))
}

/// The pool that a statement's literals are in; a pool that isn't there counts as one without a literal. It takes no
/// memory.
pub fn pool_of<'a, 'b>(places: &'b Places<'a>, statement: &Statement<'_>) -> Option<&'b Pool<'a>>
    ensures { unwrap_or (option_map (λ pool. pool.now) result) [] ≡ pool_of (whole_by places.now) statement.now }
{
    places.pools.as_slice().get(statement.place().pool)
}

/// The length of one copy of a literal.
fn length_once(text: &[u8]) -> u128
    ensures { result ≡ item_length (constant_in false text.now) }
{
    match Constant::read(text, false) {
        Ok(item) => item.length(),
        Err(_) => 1,
    }
}

/// The place of the literal of a text.
fn literal_place(places: &Places<'_>, statement: &Statement<'_>, text: &[u8]) -> Option<Value>
    ensures { result ≡ literal_place (whole_by places.now) statement.now text.now }
{
    let pool = pool_of(places, statement)?;
    let literal = pool.get(text)?;
    location_counter(statement.place().section, literal.offset, length_once(text))
}

/// The place of the statement's last operand, where that is a literal; else None.
///
/// An error comes only where an allocation failed.
pub fn literal_of(
    alloc: Global,
    places: &Places<'_>,
    statement: &Statement<'_>,
) -> Result<Option<Value>, AllocError>
    ensures { IfOk result (λ value. value ≡ literal_of (whole_by places.now) statement.now) }
{
    let Some(part) = literal_in(alloc, statement.stmt().operand.as_slice())? else {
        return Ok(None);
    };
    let Some(text) = literal_text(part) else {
        return Ok(None);
    };
    Ok(literal_place(places, statement, text))
}

/// One copy of an item of a DS (`is_ds`), or of a DC or a literal without its equals sign, where the location counter
/// is at a place: its bytes, and whether they are a word to which the load address is added (GC33-4010, "DC -- Define
/// Constant").
///
/// The faults are those of reading the item (`Constant::read`), and else the lowest of its values' (`Constant::bytes`).
/// Memory comes only where an allocation failed.
pub fn item_made(
    alloc: Global,
    places: &Places<'_>,
    is_ds: bool,
    at: Option<Value>,
    text: &[u8],
) -> Result<ConstantBytes, TermFault>
    ensures made { Answers (item_made (whole_by places.now) is_ds at text.now) result }
    ensures refused { (fault : FaultKind) → constant_in is_ds text.now ≡ Err fault
        → result ≡ Err (Refused fault) }
{
    match Constant::read(text, is_ds) {
        Ok(item) => item.bytes(alloc, &places.symbols, at.as_ref(), control_name(places)),
        Err(fault) => Err(TermFault::Refused(fault)),
    }
}
