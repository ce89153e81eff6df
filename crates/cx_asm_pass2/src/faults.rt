//! What the operands of a statement whose place is known make, and what is wrong with them.

ghost use Rattle.std.specs.Prelude.{◌≡◌, IfOk, map, option_map, option_and_then};
ghost use Rattle.std.specs.Map.{lookup};
ghost use Rattle.std.specs.Result.{result_err};
ghost use Rattle.std.specs.Str.{bytes_eq};
ghost use Rattle.cx_asm_expressions.specs.Expressions.{Answers};
ghost use Rattle.cx_asm_expressions.specs.Faults.{lower, lowest};
ghost use Rattle.cx_asm_operands.specs.Directives.{entry_in};
ghost use Rattle.cx_asm_operands.specs.Bases.{none_in_use};
ghost use Rattle.cx_asm_operands.specs.Forms.{instruction_or_fault};
ghost use Rattle.cx_asm_pass2.specs.SecondFaults.{literals_fault, part_fault, used_fault};
ghost use Rattle.cx_asm_pass2.specs.Whole.{directive_context, instruction_context, item_made, pool_of, whole_by};

use crate::statements::Statement;
use crate::whole::{control_name, counter_of, item_made, literal_of, pool_of};
use cx_asm_expressions::{FaultKind, TermFault, Value, lower};
use cx_asm_operands::{Bases, Context, read_entry, resolve};
use cx_asm_operations::Operation;
use cx_asm_pass1::Places;
use cx_asm_pools::literal_text;
use cx_code::Inst;
use cx_source::{Delimiter, cut};
use std::alloc::{AllocError, Global};

/// The fault of one copy of an item, as `item_made` has it; None where it has none.
///
/// An error comes only where an allocation failed.
pub fn made_fault(
    alloc: Global,
    places: &Places<'_>,
    is_ds: bool,
    at: Option<Value>,
    text: &[u8],
) -> Result<Option<FaultKind>, AllocError>
    ensures { IfOk result (λ fault. fault ≡ result_err (item_made (whole_by places.now) is_ds at text.now)) }
{
    match item_made(alloc, places, is_ds, at, text) {
        Ok(_) => Ok(None),
        Err(TermFault::Refused(fault)) => Ok(Some(fault)),
        Err(TermFault::Memory) => Err(AllocError),
    }
}

/// The fault of the literal of a text, where the statement uses it first.
fn text_fault(
    alloc: Global,
    places: &Places<'_>,
    number: usize,
    statement: &Statement<'_>,
    text: &[u8],
) -> Result<Option<FaultKind>, AllocError>
    ensures { let whole = whole_by places.now in let literal = lookup (bytes_eq text.now)
        (pool_of whole statement.now) in
        IfOk result (λ fault. fault ≡ option_and_then (used_fault whole number statement.now text.now) literal) }
{
    let Some(pool) = pool_of(places, statement) else {
        return Ok(None);
    };
    let Some(literal) = pool.get(text) else {
        return Ok(None);
    };
    if literal.user != number {
        return Ok(None);
    }
    made_fault(alloc, places, false, counter_of(statement), text)
}

/// The fault of an operand as far as it is a literal.
fn part_fault(
    alloc: Global,
    places: &Places<'_>,
    number: usize,
    statement: &Statement<'_>,
    part: &[u8],
) -> Result<Option<FaultKind>, AllocError>
    ensures { IfOk result (λ fault. fault ≡ part_fault (whole_by places.now) number statement.now part.now) }
{
    match literal_text(part) {
        Some(text) => text_fault(alloc, places, number, statement, text),
        None => Ok(None),
    }
}

/// The lowest fault of the operands as far as they are literals.
fn parts_fault(
    alloc: Global,
    places: &Places<'_>,
    number: usize,
    statement: &Statement<'_>,
    parts: &[&[u8]],
) -> Result<Option<FaultKind>, AllocError>
    ensures { let fault_of = part_fault (whole_by places.now) number statement.now in
        IfOk result (λ fault. fault ≡ lowest (map fault_of (map (λ part. part.now) parts.now))) }
{
    let mut fault = None;
    for part in parts {
        let other = part_fault(alloc, places, number, statement, part)?;
        fault = lower(fault, other);
    }
    Ok(fault)
}

/// The lowest fault of the literals that a statement uses first in their pool; `number` is the statement's, from 0.
/// None where they have none.
///
/// An error comes only where an allocation failed.
pub fn literals_fault(
    alloc: Global,
    places: &Places<'_>,
    number: usize,
    statement: &Statement<'_>,
) -> Result<Option<FaultKind>, AllocError>
    ensures { IfOk result (λ fault. fault ≡ literals_fault (whole_by places.now) number statement.now) }
{
    let parts = cut(
        alloc,
        statement.stmt().operand.as_slice(),
        Delimiter::TopComma,
    )?;
    parts_fault(alloc, places, number, statement, parts.as_slice())
}

/// The instruction of a statement with this operation, where these bases are in use, and the location counter is where
/// the statement is.
///
/// The faults are those of `resolve`. Memory comes only where an allocation failed.
pub fn instruction_of(
    alloc: Global,
    places: &Places<'_>,
    bases: &Bases,
    statement: &Statement<'_>,
    operation: Operation,
) -> Result<Inst, TermFault>
    ensures { let c = instruction_context (whole_by places.now) bases.now statement.now in
        Answers (instruction_or_fault operation c statement.now.stmt.operand) result }
{
    let literal = literal_of(alloc, places, statement)?;
    let context = Context::new(&places.symbols, counter_of(statement), bases, literal);
    resolve(
        alloc,
        &context,
        operation,
        statement.stmt().operand.as_slice(),
    )
}

/// The entry that an END writes, as an offset in the control section, in bytes: 0 where it writes none.
///
/// The faults are those of `read_entry`. Memory comes only where an allocation failed.
pub fn entry_of(
    alloc: Global,
    places: &Places<'_>,
    statement: &Statement<'_>,
) -> Result<u32, TermFault>
    ensures { let whole = whole_by places.now in let c = directive_context whole none_in_use statement.now in
        Answers (entry_in whole.control c statement.now.stmt.operand) result }
{
    let bases = Bases::new();
    let context = Context::new(&places.symbols, counter_of(statement), &bases, None);
    let control = control_name(places);
    read_entry(
        alloc,
        &context,
        control,
        statement.stmt().operand.as_slice(),
    )
}
