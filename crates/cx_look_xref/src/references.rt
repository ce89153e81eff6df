//! The names that a source uses, with their lines.
ghost use Rattle.std.specs.Prelude.{◌≡◌, ◌++◌, IfOk, List, OnOk, map, ℕ};
ghost use Rattle.cx_asm_expressions.specs.Names.{is_same};
ghost use Rattle.cx_look_xref.specs.References.{lines_using, names_stored, names_used, reference, references_of, references_on, stores_of};
ghost use Rattle.cx_look_xref.specs.Parts.Uses.{lines_of_name, with_line};

use crate::names::{names_stored, names_used};
use crate::uses::put;
use cx_ebcdic::Name8;
use cx_source::{Item, Source};
use indexmap::IndexMap;
use std::alloc::{AllocError, Global};
use std::collections::BTreeSet;

/// A name that a statement uses, or into which it stores.
#[derive(Clone, Copy)]
pub struct Reference {
    /// The name.
    pub name: Name8,
    /// The number of the statement's line, from 1.
    pub line: usize,
}

/// Adds names that a line uses.
fn push_names(
    references: &mut Vec<Reference>,
    line: usize,
    names: &[Name8],
) -> Result<(), AllocError>
    ensures { OnOk result (references.new.items ≡ references.old.items ++ map (reference line) names.now) }
{
    for name in names {
        references.push(Reference { name: *name, line })?;
    }
    Ok(())
}

/// Adds the names that a line's statement uses.
fn push_line(alloc: Global, references: &mut Vec<Reference>, item: &Item) -> Result<(), AllocError>
    ensures { let more = references_on names_used item.now.line item.now.stmt in
        OnOk result (references.new.items ≡ references.old.items ++ more) }
{
    let Some(stmt) = &item.stmt else {
        return Ok(());
    };
    let names = names_used(alloc, stmt)?;
    push_names(references, item.line, names.as_slice())
}

/// The names that a source's statements use, each with its line, in the source's order.
///
/// An error comes only where memory for them was refused.
pub fn references_of(alloc: Global, source: &Source) -> Result<Vec<Reference>, AllocError>
    ensures { IfOk result (λ references. references.items ≡ references_of source.now) }
{
    let mut references = Vec::new(alloc);
    for item in source.items.as_slice() {
        push_line(alloc, &mut references, item)?;
    }
    Ok(references)
}

/// Adds the names into which the instruction of a line's statement stores.
fn push_stores(
    alloc: Global,
    references: &mut Vec<Reference>,
    item: &Item,
) -> Result<(), AllocError>
    ensures { let more = references_on names_stored item.now.line item.now.stmt in
        OnOk result (references.new.items ≡ references.old.items ++ more) }
{
    let Some(stmt) = &item.stmt else {
        return Ok(());
    };
    let names = names_stored(alloc, stmt)?;
    push_names(references, item.line, names.as_slice())
}

/// The names in front of the parentheses of the operands into which a source's instructions store, each with its line,
/// in the source's order.
///
/// An error comes only where memory for them was refused.
pub fn stores_of(alloc: Global, source: &Source) -> Result<Vec<Reference>, AllocError>
    ensures { IfOk result (λ references. references.items ≡ stores_of source.now) }
{
    let mut references = Vec::new(alloc);
    for item in source.items.as_slice() {
        push_stores(alloc, &mut references, item)?;
    }
    Ok(references)
}

/// Keeps that a line uses a name.
#[tactic(auto, using(crate::proofs::UseLemmas::name_reads))]
fn put_name(
    alloc: Global,
    table: &mut IndexMap<Name8, BTreeSet<usize>>,
    reference: Reference,
) -> Result<(), AllocError>
    ensures { OnOk result ((name : List ℕ) → lines_of_name table.new.entries name
        ≡ with_line (is_same name reference.name) reference.line (lines_of_name table.old.entries name)) }
{
    put(alloc, table, reference.name, reference.line)
}

/// The lines that use each name.
pub(crate) fn lines_by_name(
    alloc: Global,
    references: &[Reference],
) -> Result<IndexMap<Name8, BTreeSet<usize>>, AllocError>
    ensures { IfOk result (λ table. lines_of_name table.entries ≡ lines_using references.now) }
{
    let mut table = IndexMap::new(alloc);
    for reference in references {
        put_name(alloc, &mut table, *reference)?;
    }
    Ok(table)
}
