//! The names that operands use.
ghost use Rattle.std.specs.Prelude.{◌≡◌, ◌++◌, ◌≤◌, [], IfOk, OnOk, length, map, option_and_then, option_map, slice_get, take};
ghost use Rattle.std.specs.List.{flat_map, prefix_len};
ghost use Rattle.std.specs.Option.{option_to_list};
ghost use Rattle.cx_source.specs.Lines.{is_symbol_name_character};
ghost use Rattle.cx_source.specs.Marks.{first_mark};
ghost use Rattle.cx_source.specs.declared.marks.Delimiter.TheVariants.{Parenthesis};
ghost use Rattle.cx_asm_expressions.specs.Names.{symbol_name};
ghost use Rattle.cx_asm_operations.specs.Operations.{operation_named};
ghost use Rattle.cx_asm_pass1.specs.PassState.{parts_in};
ghost use Rattle.cx_look_xref.specs.References.{name_ended, names_from, names_in, names_of_constant, names_of_part, names_stored, names_used, part_stored, storage_operand, stored_operand};

use cx_asm_expressions::symbol_name;
use cx_asm_operations::{Directive, Operation};
use cx_asm_pools::literal_text;
use cx_code::{Format, Op};
use cx_ebcdic::Name8;
use cx_source::{Delimiter, Stmt, cut, first_mark, is_symbol_name_character, outside};
use std::alloc::{AllocError, Global};

/// Adds the name that characters are, if they are one.
fn push_name(names: &mut Vec<Name8>, run: &[u8]) -> Result<(), AllocError>
    ensures { OnOk result (names.new.items ≡ names.old.items ++ option_to_list (symbol_name run.now)) }
{
    let Some(name) = symbol_name(run) else {
        return Ok(());
    };
    names.push(name)?;
    Ok(())
}

/// Adds the name that characters are, by the character that ends them.
fn push_ended(names: &mut Vec<Name8>, run: &[u8], next: u8) -> Result<(), AllocError>
    ensures { OnOk result (names.new.items ≡ names.old.items ++ name_ended run.now next) }
{
    if next == b'\'' {
        return Ok(());
    }
    push_name(names, run)
}

/// Adds the names in a text, of whose characters those lie outside apostrophes.
#[tactic(auto, using(crate::proofs::NameLemmas::names_end))]
fn push_outside(
    alloc: Global,
    names: &mut Vec<Name8>,
    text: &[u8],
    outside: &[bool],
) -> Result<(), AllocError>
    ensures { OnOk result (names.new.items ≡ names.old.items ++ names_from [] text.now outside.now) }
{
    let mut run = Vec::new(alloc);
    for (i, c) in text.iter().enumerate() {
        let Some(lies_outside) = outside.get(i) else {
            push_name(names, &run)?;
            return Ok(());
        };
        if *lies_outside && is_symbol_name_character(*c) {
            run.push(*c)?;
            continue;
        }
        push_ended(names, &run, *c)?;
        run.clear();
    }
    push_name(names, &run)
}

/// Adds the names in a text.
fn push_names(alloc: Global, names: &mut Vec<Name8>, text: &[u8]) -> Result<(), AllocError>
    ensures { OnOk result (names.new.items ≡ names.old.items ++ names_in text.now) }
{
    let outside = outside(alloc, text)?;
    push_outside(alloc, names, text, outside.as_slice())
}

/// How many letters and digits a text begins with.
fn front_len(text: &[u8]) -> usize
    ensures count { result ≡ prefix_len is_symbol_name_character text.now }
    ensures bound { result ≤ length text.now }
{
    for (i, c) in text.iter().enumerate() {
        if !is_symbol_name_character(*c) {
            return i;
        }
    }
    text.len()
}

/// Adds the names in a constant.
fn push_constant(alloc: Global, names: &mut Vec<Name8>, text: &[u8]) -> Result<(), AllocError>
    ensures { OnOk result (names.new.items ≡ names.old.items ++ names_of_constant text.now) }
{
    let (_, value) = text.split_at(front_len(text));
    push_names(alloc, names, value)
}

/// Adds the names in an operand that may be a literal.
fn push_part(alloc: Global, names: &mut Vec<Name8>, part: &[u8]) -> Result<(), AllocError>
    ensures { OnOk result (names.new.items ≡ names.old.items ++ names_of_part part.now) }
{
    let Some(text) = literal_text(part) else {
        push_names(alloc, names, part)?;
        return Ok(());
    };
    push_constant(alloc, names, text)
}

/// Adds the names in constants.
fn push_constants(alloc: Global, names: &mut Vec<Name8>, parts: &[&[u8]]) -> Result<(), AllocError>
    ensures { OnOk result (names.new.items
        ≡ names.old.items ++ flat_map names_of_constant (map (λ part. part.now) parts.now)) }
{
    for part in parts {
        push_constant(alloc, names, part)?;
    }
    Ok(())
}

/// Adds the names in operands that may be literals.
fn push_parts(alloc: Global, names: &mut Vec<Name8>, parts: &[&[u8]]) -> Result<(), AllocError>
    ensures { OnOk result (names.new.items
        ≡ names.old.items ++ flat_map names_of_part (map (λ part. part.now) parts.now)) }
{
    for part in parts {
        push_part(alloc, names, part)?;
    }
    Ok(())
}

/// Adds the names that the operands of an operation use.
fn push_used(
    alloc: Global,
    names: &mut Vec<Name8>,
    operation: Option<Operation>,
    parts: &[&[u8]],
) -> Result<(), AllocError>
    ensures { OnOk result (names.new.items
        ≡ names.old.items ++ names_used operation (map (λ part. part.now) parts.now)) }
{
    match operation {
        Some(Operation::Directive(Directive::Dc | Directive::Ds)) => {
            push_constants(alloc, names, parts)
        }
        Some(
            Operation::Directive(
                Directive::Equ | Directive::Using | Directive::Drop | Directive::End,
            ),
        ) => push_parts(alloc, names, parts),
        Some(Operation::Directive(_)) => Ok(()),
        _ => push_parts(alloc, names, parts),
    }
}

/// The names that a statement uses, in their order.
pub(crate) fn names_used(alloc: Global, stmt: &Stmt) -> Result<Vec<Name8>, AllocError>
    ensures { let operation = operation_named stmt.now.operation in
        IfOk result (λ names. names.items ≡ names_used operation (parts_in stmt.now)) }
{
    let parts = cut(alloc, stmt.operand.as_slice(), Delimiter::TopComma)?;
    let operation = Operation::from_name(stmt.operation.as_slice());
    let mut names = Vec::new(alloc);
    push_used(alloc, &mut names, operation, parts.as_slice())?;
    Ok(names)
}

/// Which operand of a format lies in storage, counted from 0; of two the first.
fn storage_operand(format: Format) -> usize
    ensures { result ≡ storage_operand format }
{
    match format {
        Format::Rx => 1,
        Format::Rs => 2,
        Format::Rr | Format::Si | Format::Ss | Format::Ss2 => 0,
    }
}

/// The operand, counted from 0, into which an instruction stores.
fn stored_operand(op: Op) -> Option<usize>
    ensures { result ≡ stored_operand op }
{
    if !op.stores() {
        return None;
    }
    Some(storage_operand(op.format()))
}

/// The operand, counted from 0, into which an operation stores.
fn part_stored(operation: Option<Operation>) -> Option<usize>
    ensures { result ≡ part_stored operation }
{
    match operation {
        Some(Operation::Machine(op)) => stored_operand(op),
        _ => None,
    }
}

/// What an operand has in front of its parentheses.
fn before_list(part: &[u8]) -> &[u8]
    ensures { result.now ≡ take (first_mark Parenthesis part.now) part.now }
{
    part.split_at(first_mark(part, Delimiter::Parenthesis)).0
}

/// The operand into which an operation stores, as far as its parentheses.
fn stored_text<'a>(operation: Option<Operation>, parts: &[&'a [u8]]) -> Option<&'a [u8]>
    ensures { let texts = map (λ part. part.now) parts.now in
        option_map (λ text. text.now) result
        ≡ option_map (λ part. take (first_mark Parenthesis part) part)
        (option_and_then (slice_get texts) (part_stored operation)) }
{
    let k = part_stored(operation)?;
    let part = parts.get(k)?;
    Some(before_list(part))
}

/// Adds the names of the operand into which an operation stores.
fn push_stored(
    alloc: Global,
    names: &mut Vec<Name8>,
    operation: Option<Operation>,
    parts: &[&[u8]],
) -> Result<(), AllocError>
    ensures { OnOk result (names.new.items
        ≡ names.old.items ++ names_stored operation (map (λ part. part.now) parts.now)) }
{
    let Some(text) = stored_text(operation, parts) else {
        return Ok(());
    };
    push_names(alloc, names, text)
}

/// The names of the operand into which a statement's instruction stores, in their order.
pub(crate) fn names_stored(alloc: Global, stmt: &Stmt) -> Result<Vec<Name8>, AllocError>
    ensures { let operation = operation_named stmt.now.operation in
        IfOk result (λ names. names.items ≡ names_stored operation (parts_in stmt.now)) }
{
    let parts = cut(alloc, stmt.operand.as_slice(), Delimiter::TopComma)?;
    let operation = Operation::from_name(stmt.operation.as_slice());
    let mut names = Vec::new(alloc);
    push_stored(alloc, &mut names, operation, parts.as_slice())?;
    Ok(names)
}
