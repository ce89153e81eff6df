//! The listing.

ghost use Rattle.std.specs.Prelude.{◌≡◌, ◌+◌, IfOk, drop, map, take, None, []};
ghost use Rattle.cx_asm_pools.specs.Pools.{cap, literal_size};
ghost use Rattle.cx_asm_image.specs.Listing.{listing_line};
ghost use Rattle.cx_asm_pass2.specs.Whole.{whole_by};
ghost use Rattle.cx_asm.specs.Listing.{end_of_items, line_with, item_listing, object_length, object_of, offset_shown};

use crate::section::is_control;
use cx_asm_expressions::Constant;
use cx_asm_image::listing_line;
use cx_asm_pass1::{Places, Role};
use cx_asm_pass2::{PlacedItem, Statement, StatementItem, control_name, placed_items};
use cx_asm_pools::capped;
use cx_source::{Item, Text};
use std::alloc::{AllocError, Global};

/// The offset that a statement of a role is listed with.
fn offset_shown(at: u128, role: Role) -> Option<u128>
    ensures { result ≡ offset_shown at role }
{
    match role {
        Role::Instruction(_) | Role::Storage { is_ds: _ } => Some(at),
        _ => None,
    }
}

/// How many bytes an item of a DC has.
fn constant_size(text: &[u8]) -> u128
    ensures { result ≡ literal_size text.now }
{
    match Constant::read(text, false) {
        Ok(item) => item.size(),
        Err(_) => 0,
    }
}

/// The offset after an item of a DC.
fn item_end(item: &StatementItem<'_>) -> u128
    ensures { result ≡ cap item.now.1 + cap (literal_size item.now.0) }
{
    capped(item.offset()) + capped(constant_size(item.text()))
}

/// The offset after a DC's items.
fn end_of_items(at: u128, items: &[StatementItem<'_>]) -> u128
    ensures { result ≡ end_of_items at items.now }
{
    match items.last() {
        Some(item) => item_end(item),
        None => at,
    }
}

/// How many bytes a statement of a role is listed with: as many as an instruction has, or the items of a DC with the
/// gaps between them; 0 of every other statement.
///
/// An error comes only where an allocation for a DC's items failed.
pub fn object_length(
    alloc: Global,
    statement: &Statement<'_>,
    role: Role,
) -> Result<u128, AllocError>
    ensures { IfOk result (λ length. length ≡ object_length statement.now role) }
{
    match role {
        Role::Instruction(size) => Ok(size as u128),
        Role::Storage { is_ds: false } => {
            let items = placed_items(alloc, statement)?;
            let at = statement.place().offset;
            Ok(end_of_items(at, items.as_slice()).saturating_sub(at))
        }
        _ => Ok(0),
    }
}

/// The bytes of a text from an offset on, at most `len` of them.
fn bytes_at(text: &[u8], at: u128, count: u128) -> &[u8]
    ensures { result.now ≡ take count (drop at text.now) }
{
    let (_, after) = text.split_at((text.len() as u128).min(at) as usize);
    let (bytes, _) = after.split_at((after.len() as u128).min(count) as usize);
    bytes
}

/// The bytes that a statement is listed with.
fn object_of<'b>(
    alloc: Global,
    places: &Places<'_>,
    text: &'b [u8],
    statement: &Statement<'_>,
) -> Result<&'b [u8], AllocError>
    ensures { IfOk result (λ object. object.now ≡ object_of (whole_by places.now) text.now statement.now) }
{
    if !is_control(statement.place().section, control_name(places)) {
        return Ok(&[]);
    }
    let length = object_length(alloc, statement, statement.role())?;
    Ok(bytes_at(text, statement.place().offset, length))
}

/// A line of the listing with this statement, if it has one.
fn line_with(
    alloc: Global,
    places: &Places<'_>,
    text: &[u8],
    item: &Item,
    statement: Option<Statement<'_>>,
) -> Result<Text, AllocError>
    ensures { IfOk result
        (λ line. line ≡ line_with (whole_by places.now) text.now item.now.line item.now.text statement.entry) }
{
    let written = item.text.as_slice();
    let Some(statement) = statement else {
        return listing_line(alloc, None, b"", item.line, written);
    };
    let at = offset_shown(statement.place().offset, statement.role());
    let object = object_of(alloc, places, text, &statement)?;
    listing_line(alloc, at, object, item.line, written)
}

/// A line of the listing.
#[tactic(auto, unfolding(crate::specs::Listing::item_listing))]
fn listed(
    alloc: Global,
    places: &Places<'_>,
    text: &[u8],
    placed: &PlacedItem<'_>,
) -> Result<Text, AllocError>
    ensures { IfOk result (λ line. line ≡ item_listing (whole_by places.now) text.now placed.now) }
{
    line_with(alloc, places, text, placed.item(), placed.statement())
}

/// The listing of lines, with the text of their section.
pub(crate) fn listing_of(
    alloc: Global,
    places: &Places<'_>,
    text: &[u8],
    placed: &[PlacedItem<'_>],
) -> Result<Vec<Text>, AllocError>
    ensures { IfOk result (λ lines. lines.items ≡ map (item_listing (whole_by places.now) text.now) placed.now) }
{
    let mut lines = Vec::with_capacity(alloc, placed.len())?;
    for line in placed {
        lines.push(listed(alloc, places, text, line)?)?;
    }
    Ok(lines)
}
