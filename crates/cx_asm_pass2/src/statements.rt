//! The statements of a source, each with its line and its place.

ghost use Rattle.std.specs.Prelude.{◌≡◌, IfOk, IsOk, codes, length, map, option_map, slice_get};
ghost use Rattle.std.specs.List.{filter_map, find, zip};
ghost use Rattle.cx_asm_pass1.specs.PassState.{parts_in, role_in};
ghost use Rattle.cx_asm_pass1.specs.Locations.{final_state};
ghost use Rattle.cx_asm_pass2.specs.Statements.{first_end, operation_of, placed_items, placed_of, stated_in};
ghost use Rattle.std.specs.Str.{bytes_eq};

use cx_asm_operations::Operation;
use cx_asm_pass1::{Place, Places, Role};
use cx_source::{Delimiter, Item, Source, Stmt, cut};
use std::alloc::{AllocError, Global};
use std::marker::Model;

/// A line, and the place of its statement, if it has one.
#[derive(Drop)]
pub struct PlacedItem<'a> {
    item: &'a Item,
    place: Option<&'a Place>,
}

impl<'a> Model for PlacedItem<'a> {
    ghost use Rattle.std.specs.Prelude.{option_map};
    ghost use Rattle.cx_asm_pass2.specs.Statements.{PlacedItem as PlacedItemValue};

    ghost Value = { PlacedItemValue };

    ghost view = { λ s. record { item = s.item.now; place = option_map (λ place. place.now) s.place } };
}

/// A statement with its line's number and its place.
#[derive(Drop)]
pub struct Statement<'a> {
    line: usize,
    stmt: &'a Stmt,
    place: &'a Place,
}

impl<'a> Model for Statement<'a> {
    ghost use Rattle.cx_asm_pass2.specs.Statements.{PlacedStatement, placed_statement};

    ghost Value = { PlacedStatement };

    ghost view = { λ s. placed_statement s.line s.stmt.now s.place.now };
}

impl<'a> PlacedItem<'a> {
    /// The line, with its number, its text and its statement.
    pub fn item(&self) -> &'a Item
        ensures { result.now ≡ self.now.item }
    {
        self.item
    }

    /// The statement that begins on it, with its line and its place; None where none does. It takes no memory.
    pub fn statement(&self) -> Option<Statement<'a>>
        ensures { result ≡ stated_in self.now }
    {
        let Some(stmt) = &self.item.stmt else {
            return None;
        };
        let place = self.place?;
        Some(Statement {
            line: self.item.line,
            stmt,
            place,
        })
    }
}

impl<'a> Statement<'a> {
    /// The number of the line on which it begins, from 1.
    pub fn line(&self) -> usize
        ensures { result ≡ self.now.line }
    {
        self.line
    }

    /// Its name, operation and operand, as they are written.
    pub fn stmt(&self) -> &'a Stmt
        ensures { result.now ≡ self.now.stmt }
    {
        self.stmt
    }

    /// Where it is, by the first pass.
    pub fn place(&self) -> &'a Place
        ensures { result.now ≡ self.now.place }
    {
        self.place
    }

    /// Its operation; None where the table has no such operation. It takes no memory.
    pub fn operation(&self) -> Option<Operation>
        ensures { result ≡ operation_of self.now }
    {
        Operation::from_name(self.stmt.operation.as_slice())
    }

    /// What its operation does in the first pass. It takes no memory.
    pub fn role(&self) -> Role
        ensures { result ≡ role_in self.now.stmt }
    {
        Role::of(self.stmt.operation.as_slice())
    }

    /// Whether it is an END. It takes no memory.
    pub fn is_end(&self) -> bool
        ensures { result ≡ bytes_eq self.now.stmt.operation (codes "END") }
    {
        self.stmt.operation.as_slice() == b"END".as_slice()
    }
}

/// The statements of lines, in their order, each with its line and its place.
///
/// An error comes only where an allocation failed.
pub fn stated<'a>(
    alloc: Global,
    placed: &[PlacedItem<'a>],
) -> Result<Vec<Statement<'a>>, AllocError>
    ensures { IfOk result (λ found. found.items ≡ filter_map stated_in placed.now) }
{
    let mut found = Vec::new(alloc);
    for line in placed {
        if let Some(statement) = line.statement() {
            found.push(statement)?;
        }
    }
    Ok(found)
}

/// An item of a DS or DC as it is written, and its offset in the section, in bytes.
#[derive(Drop)]
pub struct StatementItem<'a> {
    text: &'a [u8],
    offset: u128,
}

impl<'a> Model for StatementItem<'a> {
    ghost use Rattle.std.specs.Prelude.{List, ℕ};

    ghost Value = { List ℕ × ℕ };

    ghost view = { λ s. (s.text.now, s.offset) };
}

impl<'a> StatementItem<'a> {
    /// The item, as it is written.
    pub fn text(&self) -> &'a [u8]
        ensures { result.now ≡ self.now.0 }
    {
        self.text
    }

    /// Its offset in the statement's section, in bytes.
    pub fn offset(&self) -> u128
        ensures { result ≡ self.now.1 }
    {
        self.offset
    }
}

/// Texts, each with its offset.
#[tactic(auto, using(crate::proofs::ItemLemmas::zip_ends))]
fn items_with<'a>(
    alloc: Global,
    texts: &[&'a [u8]],
    offsets: &[u128],
) -> Result<Vec<StatementItem<'a>>, AllocError>
    ensures { IfOk result (λ found. found.items ≡ zip (map (λ text. text.now) texts.now) offsets.now) }
{
    let mut found = Vec::new(alloc);
    for (index, text) in texts.iter().enumerate() {
        let Some(offset) = offsets.get(index) else {
            return Ok(found);
        };
        found.push(StatementItem {
            text,
            offset: *offset,
        })?;
    }
    Ok(found)
}

/// The items of a DS or DC, each with its offset.
///
/// An error comes only where an allocation failed; where no item has a place it takes no memory.
#[tactic(auto, using(crate::proofs::ItemLemmas::zip_of_none))]
pub fn placed_items<'a>(
    alloc: Global,
    statement: &Statement<'a>,
) -> Result<Vec<StatementItem<'a>>, AllocError>
    ensures items { IfOk result (λ found. found.items ≡ placed_items statement.now) }
    ensures empty { length statement.now.place.items ≡ 0 → IsOk result }
{
    if statement.place.items.as_slice().is_empty() {
        return Ok(Vec::new(alloc));
    }
    let texts = cut(
        alloc,
        statement.stmt.operand.as_slice(),
        Delimiter::TopComma,
    )?;
    items_with(alloc, texts.as_slice(), statement.place.items.as_slice())
}

/// The place of a number, from 0.
fn place_at(places: &[Place], number: usize) -> Option<&Place>
    ensures { option_map (λ place. place.now) result ≡ slice_get places.now number }
{
    places.get(number)
}

/// The lines of a source in their order, each with the place of its statement: `places` are those of all its
/// statements, as the first pass gives them.
///
/// An error comes only where an allocation failed.
#[tactic(auto, unfolding(crate::specs::Statements::placed_of))]
pub fn placed_lines<'a>(
    alloc: Global,
    source: &'a Source,
    places: &'a [Place],
) -> Result<Vec<PlacedItem<'a>>, AllocError>
    requires { places.now ≡ (final_state source.now).places }
    ensures { IfOk result (λ placed. placed.items ≡ placed_of source.now) }
{
    let mut placed = Vec::new(alloc);
    let mut next = 0;
    for item in source.items.as_slice() {
        if item.stmt.is_none() {
            placed.push(PlacedItem { item, place: None })?;
            continue;
        }
        placed.push(PlacedItem {
            item,
            place: place_at(places, next),
        })?;
        next += 1;
    }
    Ok(placed)
}
