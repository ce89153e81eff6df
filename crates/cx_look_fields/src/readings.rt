//! How the bytes of a source's fields are read.
ghost use Rattle.std.specs.Prelude.{◌≡◌, ◌==◌, ◌++◌, [], IfOk, OnOk, Some, map, option_and_then, option_map, slice_get, unwrap_or};
ghost use Rattle.std.specs.List.{cons_option, find};
ghost use Rattle.cx_asm_expressions.specs.Items.{length_of};
ghost use Rattle.cx_asm_expressions.specs.Kinds.{row_of_kind};
ghost use Rattle.cx_asm_pass1.specs.PassState.{parts_in, role_in};
ghost use Rattle.cx_asm_pass1.specs.declared.roles.Role.TheVariants.{Storage};
ghost use Rattle.cx_look_fields.specs.Readings.{reading_by, reading_first, reading_in, reading_named, reading_of_item, readings_of};

use cx_asm_expressions::{Constant, ConstantKind, symbol_name};
use cx_asm_pass1::Role;
use cx_ebcdic::Name8;
use cx_source::{Delimiter, Item, Source, Stmt, cut};
use std::alloc::{AllocError, Global};

/// How bytes are read as a number.
#[derive(Clone, Copy, PartialEq, Eq)]
pub enum Reading {
    /// As a binary number, in two's complement.
    Binary,
    /// As a packed decimal.
    Packed,
    /// As a zoned decimal.
    Zoned,
}

/// How the bytes of a name are read.
#[derive(Clone, Copy)]
pub struct NamedReading {
    /// The name of the DS or DC.
    pub name: Name8,
    /// How the bytes there are read.
    pub reading: Reading,
}

/// How a constant of a type is read, where it has one value or not.
fn reading_by(kind: ConstantKind, is_one: bool) -> Option<Reading>
    ensures { result ≡ reading_by kind is_one }
{
    match kind {
        ConstantKind::Fullword | ConstantKind::Halfword => {
            if is_one { Some(Reading::Binary) } else { None }
        }
        ConstantKind::Packed => Some(Reading::Packed),
        ConstantKind::Character => Some(Reading::Zoned),
        _ => None,
    }
}

/// The length of an item without a value.
fn plain_length(item: &Constant<'_>) -> u128
    ensures { result ≡ unwrap_or item.now.modifier (row_of_kind item.now.kind).alignment }
{
    match item.modifier() {
        Some(modifier) => u128::from(modifier),
        None => u128::from(item.kind().alignment()),
    }
}

/// How an item is read.
fn reading_of_item(item: &Constant<'_>) -> Option<Reading>
    ensures { result ≡ reading_of_item item.now }
{
    let is_one = item.length() == plain_length(item);
    reading_by(item.kind(), is_one)
}

/// How an item of a DS (`is_ds`) or a DC is read, if it is one.
fn reading_at(is_ds: bool, text: &[u8]) -> Option<Reading>
    ensures { result ≡ reading_first (Storage is_ds) (Some text.now) }
{
    match Constant::read(text, is_ds) {
        Ok(item) => reading_of_item(&item),
        Err(_) => None,
    }
}

/// How the first item of a DS (`is_ds`) or a DC is read.
fn reading_first(is_ds: bool, parts: &[&[u8]]) -> Option<Reading>
    ensures { result ≡ reading_first (Storage is_ds) (slice_get (map (λ part. part.now) parts.now) 0) }
{
    let part = parts.first()?;
    reading_at(is_ds, part)
}

/// How the first item of a statement is read.
fn reading_on(alloc: Global, stmt: &Stmt) -> Result<Option<Reading>, AllocError>
    ensures { let part = slice_get (parts_in stmt.now) 0 in
        IfOk result (λ reading. reading ≡ reading_first (role_in stmt.now) part) }
{
    let Role::Storage { is_ds } = Role::of(stmt.operation.as_slice()) else {
        return Ok(None);
    };
    let parts = cut(alloc, stmt.operand.as_slice(), Delimiter::TopComma)?;
    Ok(reading_first(is_ds, parts.as_slice()))
}

/// How the bytes of a statement's name are read.
fn reading_in(alloc: Global, stmt: &Stmt) -> Result<Option<NamedReading>, AllocError>
    ensures { IfOk result (λ reading. reading ≡ reading_in stmt.now) }
{
    let Some(name) = symbol_name(stmt.name.as_slice()) else {
        return Ok(None);
    };
    let Some(reading) = reading_on(alloc, stmt)? else {
        return Ok(None);
    };
    Ok(Some(NamedReading { name, reading }))
}

/// Adds how the bytes of a line's name are read.
fn push_reading(
    alloc: Global,
    readings: &mut Vec<NamedReading>,
    item: &Item,
) -> Result<(), AllocError>
    ensures { let more = cons_option (option_and_then reading_in item.now.stmt) [] in
        OnOk result (readings.new.items ≡ readings.old.items ++ more) }
{
    let Some(stmt) = &item.stmt else {
        return Ok(());
    };
    if let Some(reading) = reading_in(alloc, stmt)? {
        readings.push(reading)?;
    }
    Ok(())
}

/// How the bytes of a source's fields are read, by their names: those of the DS and DC whose first item is a number or
/// characters, in the source's order.
///
/// An error comes only where memory was refused.
#[tactic(auto, using(crate::proofs::AddLemmas::added_before))]
pub fn readings_of(alloc: Global, source: &Source) -> Result<Vec<NamedReading>, AllocError>
    ensures { IfOk result (λ readings. readings.items ≡ readings_of source.now) }
{
    let mut readings = Vec::new(alloc);
    for item in source.items.as_slice() {
        push_reading(alloc, &mut readings, item)?;
    }
    Ok(readings)
}

/// How the bytes of a name are read, by the first of `readings` that is of it; None where none is. It takes no memory.
pub fn reading_named(readings: &[NamedReading], name: Name8) -> Option<Reading>
    ensures { result ≡ reading_named readings.now name }
{
    let found = readings.iter().find(|it| it.name == name)?;
    Some(found.reading)
}
