//! The instructions of a source.
ghost use Rattle.std.specs.Prelude.{◌≡◌, IfOk, None};
ghost use Rattle.std.specs.List.{filter_map};
ghost use Rattle.cx_look_cover.specs.Statements.{first_on_lines, instruction_place_of, instruction_places, is_instruction, is_on};

use cx_asm_pass1::Role;
use cx_asm_pass2::Statement;
use cx_base::List;
use cx_ebcdic::Name8;
use cx_look_symbols::{PlacedSource, StatementPlace, statement_place, translated_in};
use cx_source::Text;
use std::alloc::{AllocError, Global};

/// Whether a role is that of an instruction.
fn is_instruction(role: Role) -> bool
    ensures { result ≡ is_instruction role }
{
    match role {
        Role::Instruction(_) => true,
        _ => false,
    }
}

/// Where an instruction of the control section is, whose name is `control`; None of another statement.
fn instruction_place(
    alloc: Global,
    control: Option<Name8>,
    statement: &Statement<'_>,
) -> Result<Option<StatementPlace>, AllocError>
    ensures { IfOk result (λ place. place ≡ instruction_place_of control statement.now) }
{
    if !is_instruction(statement.role()) {
        return Ok(None);
    }
    statement_place(alloc, control, statement)
}

/// Whether a statement is on a line.
fn is_on(line: Option<usize>, place: StatementPlace) -> bool
    ensures { result ≡ is_on line place }
{
    match line {
        Some(line) => line == place.line,
        None => false,
    }
}

/// Where the instructions among statements are in the control section, whose name is `control`; of those on one line
/// the first.
fn instructions_among(
    alloc: Global,
    control: &Option<Name8>,
    statements: &[Statement<'_>],
) -> Result<List<StatementPlace>, AllocError>
    ensures { let all = filter_map (instruction_place_of control.now) statements.now in
        IfOk result (λ found. found ≡ first_on_lines None all) }
{
    let mut found = Vec::new(alloc);
    let mut line = None;
    for statement in statements {
        let Some(place) = instruction_place(alloc, *control, statement)? else {
            continue;
        };
        if is_on(line, place) {
            continue;
        }
        line = Some(place.line);
        found.push(place)?;
    }
    Ok(List::from_vec(found))
}

/// Where a program's instructions are, by the lines of its source: those of the control section, in their order, of
/// those that one line makes (an EXEC, a macro) the first; none where the lines are no source without a fault up to the
/// assembler's first pass.
///
/// An error comes only where memory was refused.
#[tactic(auto, unfolding(crate::specs::Statements::instruction_places))]
pub fn instruction_places(alloc: Global, lines: &[Text]) -> Result<List<StatementPlace>, AllocError>
    ensures { IfOk result (λ places. places ≡ instruction_places lines.now) }
{
    let source = translated_in(alloc, lines)?;
    let Some(placed) = PlacedSource::of(alloc, &source)? else {
        return Ok(List::from_vec(Vec::new(alloc)));
    };
    let statements = placed.statements(alloc)?;
    instructions_among(alloc, &placed.control(), statements.as_slice())
}
