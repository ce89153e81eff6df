//! What a translated source gets beside its sections.

ghost use Rattle.std.specs.Prelude.{[], ◌∷◌, codes, ◌≡◌, ◌≤◌, ◌<◌, ◌+◌, ◌++◌, IfOk, IfSome, OnOk, length, map};
ghost use Rattle.std.specs.List.{position};
ghost use Rattle.std.specs.Option.{option_map_or};
ghost use Rattle.cx_base.specs.Eib.{eib_field, eib_pieces};
ghost use Rattle.cx_translate.specs.Expansion.{stmt};
ghost use Rattle.cx_translate.specs.Sections.{
  bases,
  begins_exec,
  begins_section,
  begins_storage,
  place_after,
  continuation_count,
  field,
  has_name,
  has_operation,
  is_end,
  lines,
  insert_items,
  put_before,
  put_after,
  storage_fields,
  with_bases,
  with_eib,
  with_storage,
};

use crate::expansion::{made_item, stmt};
use cx_base::{EibField, EibPiece, EistgField, eib_pieces};
use cx_source::{Item, Stmt, is_continued};
use std::alloc::{AllocError, Global};

/// Whether a statement is of an operation.
fn has_operation(stmt: &Option<Stmt>, operation: &[u8]) -> bool
    ensures { result ≡ has_operation operation.now stmt.now }
{
    match stmt {
        Some(found) => found.operation.as_slice() == operation,
        None => false,
    }
}

/// Whether a statement is of a name.
fn has_name(stmt: &Option<Stmt>, name: &[u8]) -> bool
    ensures { result ≡ has_name name.now stmt.now }
{
    match stmt {
        Some(found) => found.name.as_slice() == name,
        None => false,
    }
}

/// Whether an EXEC statement begins on a line.
#[tactic(auto, unfolding(crate::specs::Sections::begins_exec))]
pub(crate) fn begins_exec(item: &Item) -> bool
    ensures { result ≡ begins_exec item.now }
{
    has_operation(&item.stmt, b"EXEC")
}

/// Whether the control section begins or goes on after a line.
#[tactic(auto, unfolding(crate::specs::Sections::begins_section))]
fn begins_section(item: &Item) -> bool
    ensures { result ≡ begins_section item.now }
{
    has_operation(&item.stmt, b"CSECT") || has_operation(&item.stmt, b"START")
}

/// Whether the program's storage begins or goes on after a line.
#[tactic(auto, unfolding(crate::specs::Sections::begins_storage))]
fn begins_storage(item: &Item) -> bool
    ensures { result ≡ begins_storage item.now }
{
    has_name(&item.stmt, b"DFHEISTG") && has_operation(&item.stmt, b"DSECT")
}

/// Whether a line is END's.
#[tactic(auto, unfolding(crate::specs::Sections::is_end))]
fn is_end(item: &Item) -> bool
    ensures { result ≡ is_end item.now }
{
    has_operation(&item.stmt, b"END")
}

/// The place of the first line after which the control section begins.
fn section_place(items: &[Item]) -> Option<usize>
    ensures value { result ≡ position begins_section items.now }
    ensures bound { IfSome result (λ place. place < length items.now) }
{
    items.iter().position(|item| begins_section(item))
}

/// The place of the first line after which the program's storage begins.
fn storage_place(items: &[Item]) -> Option<usize>
    ensures value { result ≡ position begins_storage items.now }
    ensures bound { IfSome result (λ place. place < length items.now) }
{
    items.iter().position(|item| begins_storage(item))
}

/// The place of the first END.
fn end_place(items: &[Item]) -> Option<usize>
    ensures value { result ≡ position is_end items.now }
    ensures bound { IfSome result (λ place. place < length items.now) }
{
    items.iter().position(|item| is_end(item))
}

/// The fields at the head of the program's storage.
fn storage_fields(alloc: Global) -> Result<Vec<Stmt>, AllocError>
    ensures { IfOk result (λ made. made.items ≡ storage_fields) }
{
    let mut made = Vec::new(alloc);
    made.push(stmt(alloc, EistgField::Eipl.name().as_bytes(), b"DS", b"18F")?)?;
    made.push(stmt(alloc, EistgField::Eitp.name().as_bytes(), b"DS", b"F")?)?;
    made.push(stmt(alloc, EistgField::Eicap.name().as_bytes(), b"DS", b"A")?)?;
    Ok(made)
}

/// The program's storage, with its head.
fn storage_section(alloc: Global) -> Result<Vec<Stmt>, AllocError>
    ensures { IfOk result (λ made. made.items ≡ stmt (codes "DFHEISTG") (codes "DSECT") [] ∷ storage_fields) }
{
    let mut made = Vec::new(alloc);
    made.push(stmt(alloc, b"DFHEISTG", b"DSECT", b"")?)?;
    made.append(&mut storage_fields(alloc)?)?;
    Ok(made)
}

/// The bases of the control section, of the program's storage and of the EIB.
fn bases(alloc: Global, name: &[u8]) -> Result<Vec<Stmt>, AllocError>
    ensures { IfOk result (λ made. made.items ≡ bases name.now) }
{
    let mut base = Vec::from_slice(alloc, name)?;
    base.extend_from_slice(b",3")?;
    let mut made = Vec::new(alloc);
    made.push(stmt(alloc, b"", b"USING", base.as_slice())?)?;
    made.push(stmt(alloc, b"", b"USING", b"DFHEISTG,13")?)?;
    made.push(stmt(alloc, b"", b"USING", b"DFHEIBLK,11")?)?;
    Ok(made)
}

/// The name of a field, or nothing for a gap.
fn field_name(field: Option<EibField>) -> &'static [u8]
    ensures { result.now ≡ option_map_or (λ f. (eib_field f).name) field [] }
{
    match field {
        Some(field) => field.name().as_bytes(),
        None => &[],
    }
}

/// A field of the EIB, or a gap.
fn field(alloc: Global, piece: EibPiece) -> Result<Stmt, AllocError>
    ensures { IfOk result (λ made. made ≡ field piece) }
{
    let len = piece.len;
    let operand = format!(in alloc; "XL{len}")?;
    stmt(alloc, field_name(piece.field), b"DS", operand.as_bytes())
}

/// The EIB.
fn eib_section(alloc: Global) -> Result<Vec<Stmt>, AllocError>
    ensures { IfOk result
        (λ made. made.items ≡ stmt (codes "DFHEIBLK") (codes "DSECT") [] ∷ map field eib_pieces) }
{
    let mut made = Vec::new(alloc);
    made.push(stmt(alloc, b"DFHEIBLK", b"DSECT", b"")?)?;
    push_fields(alloc, &mut made, eib_pieces())?;
    Ok(made)
}

/// Puts fields of the EIB after other statements.
fn push_fields(alloc: Global, made: &mut Vec<Stmt>, pieces: &[EibPiece]) -> Result<(), AllocError>
    ensures { OnOk result (made.new.items ≡ made.old.items ++ map field pieces.now) }
{
    for piece in pieces {
        made.push(field(alloc, *piece)?)?;
    }
    Ok(())
}

/// Made lines with one number.
pub(crate) fn lines(alloc: Global, line: usize, made: &[Stmt]) -> Result<Vec<Item>, AllocError>
    ensures { IfOk result (λ items. items.items ≡ lines line made.now) }
{
    let mut items = Vec::new(alloc);
    for stmt in made {
        items.push(made_item(alloc, line, stmt.copied(alloc)?)?)?;
    }
    Ok(items)
}

/// How many of the next lines continue a statement that is or isn't continued.
fn continuation_count(items: &[Item], mut continues: bool) -> usize
    ensures value { result ≡ continuation_count continues items.now }
    ensures bound { result ≤ length items.now }
{
    for (i, item) in items.iter().enumerate() {
        if !continues || item.stmt.is_some() {
            return i;
        }
        continues = is_continued(true, item.text.as_slice());
    }
    items.len()
}

/// The place after the statement that begins at a place, and after the lines that continue it.
#[tactic(auto, unfolding(crate::specs::Sections::place_after))]
fn place_after(items: &[Item], place: usize) -> usize
    requires { place < length items.now }
    ensures value { result ≡ place_after items.now place }
    ensures bound { result ≤ length items.now }
{
    let continues = is_continued(false, items[place].text.as_slice());
    let (_, rest) = items.split_at(place + 1);
    place + 1 + continuation_count(rest, continues)
}

/// Puts lines in at a place.
fn put(items: &mut Vec<Item>, place: usize, mut made: Vec<Item>) -> Result<(), AllocError>
    requires { place ≤ length items.old.items }
    ensures { OnOk result (items.new.items ≡ insert_items place made.items items.old.items) }
{
    let mut rest = items.split_off(place)?;
    items.append(&mut made)?;
    items.append(&mut rest)?;
    Ok(())
}

/// Puts made statements before the statement that begins at a place.
fn put_before(
    alloc: Global,
    items: &mut Vec<Item>,
    place: usize,
    made: &[Stmt],
) -> Result<(), AllocError>
    requires { place < length items.old.items }
    ensures { OnOk result (items.new.items ≡ put_before made.now place items.old.items) }
{
    let made = lines(alloc, items[place].line, made)?;
    put(items, place, made)
}

/// Puts made statements after the statement that begins at a place.
fn put_after(
    alloc: Global,
    items: &mut Vec<Item>,
    place: usize,
    made: &[Stmt],
) -> Result<(), AllocError>
    requires { place < length items.old.items }
    ensures { OnOk result (items.new.items ≡ put_after made.now place items.old.items) }
{
    let made = lines(alloc, items[place].line, made)?;
    let place = place_after(items.as_slice(), place);
    put(items, place, made)
}

/// The name of the statement that begins on a line.
fn name_in(stmt: &Option<Stmt>) -> &[u8]
    ensures { result.now ≡ option_map_or (λ s. s.name) stmt.now [] }
{
    match stmt {
        Some(found) => found.name.as_slice(),
        None => &[],
    }
}

/// Puts the head of the program's storage after its first DSECT; where there is none, it with its head before the
/// control section.
#[tactic(auto, unfolding(crate::specs::Sections::with_storage))]
pub(crate) fn put_storage(alloc: Global, items: &mut Vec<Item>) -> Result<(), AllocError>
    ensures { OnOk result (items.new.items ≡ with_storage items.old.items) }
{
    if let Some(place) = storage_place(items.as_slice()) {
        let made = storage_fields(alloc)?;
        return put_after(alloc, items, place, made.as_slice());
    }
    let Some(place) = section_place(items.as_slice()) else {
        return Ok(());
    };
    let made = storage_section(alloc)?;
    put_before(alloc, items, place, made.as_slice())
}

/// Puts the bases after the control section's first statement.
#[tactic(auto, unfolding(crate::specs::Sections::with_bases))]
pub(crate) fn put_bases(alloc: Global, items: &mut Vec<Item>) -> Result<(), AllocError>
    ensures { OnOk result (items.new.items ≡ with_bases items.old.items) }
{
    let Some(place) = section_place(items.as_slice()) else {
        return Ok(());
    };
    let made = bases(alloc, name_in(&items[place].stmt))?;
    put_after(alloc, items, place, made.as_slice())
}

/// Puts the EIB before the first END.
#[tactic(auto, unfolding(crate::specs::Sections::with_eib))]
pub(crate) fn put_eib(alloc: Global, items: &mut Vec<Item>) -> Result<(), AllocError>
    ensures { OnOk result (items.new.items ≡ with_eib items.old.items) }
{
    let Some(place) = end_place(items.as_slice()) else {
        return Ok(());
    };
    let made = eib_section(alloc)?;
    put_before(alloc, items, place, made.as_slice())
}
