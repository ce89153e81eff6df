//! What is known of a statement before anything changes.

ghost use Rattle.std.specs.Prelude.{◌≡◌, ◌≤◌, ◌+◌, map, IfOk, IfSome, OnOk, List, unwrap_or, ℕ, Some, pos};
ghost use Rattle.std.specs.Result.{result_ok};
ghost use Rattle.std.specs.Option.{option_or};
ghost use Rattle.cx_asm_expressions.specs.Digits.{bound};
ghost use Rattle.cx_asm_expressions.specs.Expressions.{Answers};
ghost use Rattle.cx_asm_expressions.specs.Symbols.{find_in, absolute};
ghost use Rattle.cx_asm_pass1.specs.Given.{definitions, duplicate, value_given};

use crate::faults::Heading;
use crate::given::{
    AIDS, REGISTERS, define, define_rows, is_any_defined, limited, location_counter, place_value,
    resumes,
};
use crate::layout::Extent;
use crate::roles::Role;
use cx_asm_expressions::{FaultKind, SymbolTable, TermFault, Value, value_of};
use std::alloc::{AllocError, Global};

/// What is known of a statement.
#[derive(Drop)]
pub(crate) struct Checked {
    /// What it takes in its section.
    pub(crate) extent: Extent,
    /// The value that it gives to its name.
    pub(crate) value: Option<Value>,
    /// The lowest fault that it has, except its literals'.
    pub(crate) fault: Option<FaultKind>,
}

/// The value that a statement gives to its name, if it gives one.
fn value_given(
    alloc: Global,
    heading: &Heading,
    symbols: &SymbolTable,
    operand: &[u8],
    extent: &Extent,
) -> Result<Option<Value>, TermFault>
    ensures { let h = heading.now in
        Answers (value_given h.role h.name (find_in symbols.now) h.section operand.now extent.now) result }
{
    match heading.role {
        Role::Instruction(_) | Role::Storage { is_ds: _ } | Role::Pool | Role::Unknown => Ok(Some(
            place_value(heading.section, extent.offset, extent.length),
        )),
        Role::Control | Role::Dummy => Ok(Some(place_value(heading.name, 0, 1))),
        Role::Equate => {
            let here = location_counter(heading.section, extent.offset, 1);
            let value = value_of(alloc, operand, symbols, here.as_ref())?;
            limited(value)
        }
        _ => Ok(None),
    }
}

/// The value that a statement gives to its name, if it gives one, or what is wrong with it.
pub(crate) fn value_or_fault(
    alloc: Global,
    heading: &Heading,
    symbols: &SymbolTable,
    operand: &[u8],
    extent: &Extent,
) -> Result<Result<Option<Value>, FaultKind>, AllocError>
    ensures { let h = heading.now in
        IfOk result
        (λ given. given ≡ value_given h.role h.name (find_in symbols.now) h.section operand.now extent.now) }
{
    match value_given(alloc, heading, symbols, operand, extent) {
        Ok(value) => Ok(Ok(value)),
        Err(TermFault::Refused(fault)) => Ok(Err(fault)),
        Err(TermFault::Memory) => Err(AllocError),
    }
}

/// The value that is given; an absolute 0 where it is at fault.
pub(crate) fn value_in(given: &Result<Option<Value>, FaultKind>) -> Option<Value>
    ensures { result ≡ unwrap_or (result_ok given.now) (Some (absolute (pos 0))) }
{
    match given {
        Ok(value) => *value,
        Err(_) => Some(Value::absolute(0)),
    }
}

/// Whether what a statement defines is defined.
pub(crate) fn duplicate(
    heading: &Heading,
    symbols: &SymbolTable,
    operand: &[u8],
    value: Option<Value>,
) -> Option<FaultKind>
    ensures { let h = heading.now in let find = find_in symbols.now in
        result ≡ duplicate find (definitions h.role h.name h.control find operand.now value) }
{
    let is_known = match heading.role {
        Role::Registers => is_any_defined(symbols, &REGISTERS),
        Role::Member => operand == b"DFHAID".as_slice() && is_any_defined(symbols, &AIDS),
        _ => match heading.name {
            Some(name) => {
                value.is_some()
                    && symbols.get(name).is_some()
                    && !resumes(heading.role, name, heading.control, symbols)
            }
            None => false,
        },
    };
    if is_known {
        Some(FaultKind::DuplicateSymbol)
    } else {
        None
    }
}

/// Gives a statement's symbols their values, those that have none.
pub(crate) fn define_all(
    heading: &Heading,
    symbols: &mut SymbolTable,
    operand: &[u8],
    value: Option<Value>,
) -> Result<(), AllocError>
    ensures { let h = heading.now in let find = find_in symbols.old in
        OnOk result ((other : List ℕ) → find_in symbols.new other
        ≡ option_or (find other) (find_in (definitions h.role h.name h.control find operand.now value) other)) }
{
    match heading.role {
        Role::Registers => {
            define_rows(symbols, &REGISTERS)?;
            Ok(())
        }
        Role::Member => {
            if operand == b"DFHAID".as_slice() {
                define_rows(symbols, &AIDS)?;
            }
            Ok(())
        }
        _ => {
            let (Some(name), Some(value)) = (heading.name, value) else {
                return Ok(());
            };
            if resumes(heading.role, name, heading.control, symbols) {
                return Ok(());
            }
            define(symbols, name, value)?;
            Ok(())
        }
    }
}
