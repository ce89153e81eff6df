//! The statements of a source that have bytes.
ghost use Rattle.std.specs.Prelude.{◌≡◌, ◌++◌, [], IfOk, OnOk};
ghost use Rattle.std.specs.List.{cons_option, filter_map};
ghost use Rattle.cx_look_symbols.specs.Statements.{statement_place_of, statement_places};

use crate::placed::{PlacedSource, translated_in};
use crate::texts::is_control;
use cx_asm::object_length;
use cx_asm_pass2::Statement;
use cx_asm_pools::capped;
use cx_base::List;
use cx_ebcdic::Name8;
use cx_source::Text;
use std::alloc::{AllocError, Global};

/// Where a statement's bytes are in the control section, and the line that it is on.
#[derive(Clone, Copy)]
pub struct StatementPlace {
    /// The offset of its first byte in the control section, in bytes.
    pub start: u128,
    /// The offset of the byte after its last one.
    pub end: u128,
    /// The number of its line, from 1; of a statement that a translation made the number of its EXEC's.
    pub line: usize,
}

/// Where a statement's bytes are; None where it has none in the control section, whose name is `control`.
///
/// An error comes only where memory was refused.
pub fn statement_place(
    alloc: Global,
    control: Option<Name8>,
    statement: &Statement<'_>,
) -> Result<Option<StatementPlace>, AllocError>
    ensures { IfOk result (λ place. place ≡ statement_place_of control statement.now) }
{
    let place = statement.place();
    if !is_control(place.section, control) {
        return Ok(None);
    }
    let length = object_length(alloc, statement, statement.role())?;
    if length == 0 {
        return Ok(None);
    }
    let start = capped(place.offset);
    Ok(Some(StatementPlace {
        start,
        end: start + capped(length),
        line: statement.line(),
    }))
}

/// Adds where a statement's bytes are, if it has any in the control section.
fn push_place(
    alloc: Global,
    found: &mut Vec<StatementPlace>,
    control: Option<Name8>,
    statement: &Statement<'_>,
) -> Result<(), AllocError>
    ensures { let more = cons_option (statement_place_of control statement.now) [] in
        OnOk result (found.new.items ≡ found.old.items ++ more) }
{
    let Some(place) = statement_place(alloc, control, statement)? else {
        return Ok(());
    };
    found.push(place)?;
    Ok(())
}

/// Where the bytes of statements are in the control section, whose name is `control`.
#[tactic(auto, using(crate::proofs::StatementLemmas::added_before))]
fn places_among(
    alloc: Global,
    control: &Option<Name8>,
    statements: &[Statement<'_>],
) -> Result<List<StatementPlace>, AllocError>
    ensures { IfOk result (λ found. found ≡ filter_map (statement_place_of control.now) statements.now) }
{
    let mut found = Vec::new(alloc);
    for statement in statements {
        push_place(alloc, &mut found, *control, statement)?;
    }
    Ok(List::from_vec(found))
}

/// Where the bytes of a program's statements are, by the lines of its source: of each instruction and DC of the
/// control section that has bytes, in their order; none where the lines are no source without a fault up to the
/// assembler's first pass.
///
/// An error comes only where memory was refused.
#[tactic(auto, unfolding(crate::specs::Statements::statement_places))]
pub fn statement_places(alloc: Global, lines: &[Text]) -> Result<List<StatementPlace>, AllocError>
    ensures { IfOk result (λ places. places ≡ statement_places lines.now) }
{
    let source = translated_in(alloc, lines)?;
    let Some(placed) = PlacedSource::of(alloc, &source)? else {
        return Ok(List::from_vec(Vec::new(alloc)));
    };
    let statements = placed.statements(alloc)?;
    places_among(alloc, &placed.control(), statements.as_slice())
}
