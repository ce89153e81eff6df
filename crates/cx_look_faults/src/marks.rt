//! Where on its line the part is that is at fault.

ghost use Rattle.std.specs.Prelude.{◌≡◌, ◌<◌, ◌≤◌, ◌==◌, ◌+◌, ◌-◌, [], IfOk, IfSome, codes, drop, if◌then◌else◌, is_none, length, map, nat_lt, option_map, slice_get, slice_index, take, unwrap_or};
ghost use Rattle.std.specs.List.{find, position, position_or_len, range_with_len};
ghost use Rattle.std.specs.Option.{option_map_or};
ghost use Rattle.std.specs.Str.{bytes_eq};
ghost use Rattle.cx_ebcdic.specs.Characters.{code_of};
ghost use Rattle.cx_source.specs.Lines.{columns, is_blank, is_symbol_name_character, is_written, trim_blanks};
ghost use Rattle.cx_source.specs.declared.source.Item.{Item as ItemValue};
ghost use Rattle.cx_source.specs.declared.source.Stmt.{Stmt as StmtValue};
ghost use Rattle.cx_asm_pass1.specs.Locations.{IsPlaced, final_state};
ghost use Rattle.cx_asm_pass2.specs.Statements.{statements_of};
ghost use Rattle.cx_look_faults.specs.Faults.{kinds_of};
ghost use Rattle.cx_look_faults.specs.Marks.{
  mark_of,
  missing_by_kind,
  part_found,
  part_in,
  parts_at_fault,
  spot,
  spot_by,
  stands_at,
  stmt_spot,
};
ghost use Rattle.cx_look_faults.specs.Commands.{missing, word_at_fault};
ghost use Rattle.cx_look_faults.specs.Judging.{has_exec_fault};
ghost use Rattle.cx_look_faults.specs.Spans.{is_one_of};

use crate::commands::{missing, word_at_fault};
use crate::faults::{FaultyLine, Kinds, Placed};
use crate::judging::has_exec_fault;
use crate::operands::{OperandPart, operand_parts_in};
use crate::positions::{SourceStmt, Spot, columns};
use crate::spans::{Span, is_one_of, span_text};
use cx_asm_build::SourceKind;
use cx_ebcdic::to_ebcdic;
use cx_source::{Item, Source, Text, is_symbol_name_character, trim_blanks};
use std::alloc::{AllocError, Global};

/// How many columns a line may have.
const COLUMNS: usize = 80;

/// The columns that are blank on a line that continues a statement.
const MARGIN: usize = 15;

/// The part of a line that is at fault.
#[derive(Debug, Drop)]
pub struct Mark {
    /// The fault of its line.
    pub kind: SourceKind,
    /// Where that part is on its line.
    pub spot: Spot,
    /// The names of what is missing, empty where nothing is.
    pub missing: Text,
}

/// The place of the first character without a code.
fn first_uncoded(line: &[u8]) -> Option<usize>
    ensures { result ≡ position (λ c. is_none (code_of c)) line.now }
{
    line.iter()
        .position(|c| to_ebcdic(char::from(*c)).is_none())
}

/// How many characters precede it.
#[tactic(auto, using(crate::proofs::MarkLemmas::first_or_length, crate::proofs::MarkLemmas::position_within))]
fn coded_len(line: &[u8]) -> usize
    ensures value { result ≡ position_or_len (λ c. is_none (code_of c)) line.now }
    ensures bound { result ≤ length line.now }
{
    first_uncoded(line).unwrap_or(line.len())
}

/// The place of the first character that isn't blank.
fn first_written(line: &[u8]) -> Option<usize>
    ensures { result ≡ position is_written line.now }
{
    line.iter().position(|c| *c != b' ')
}

/// How many characters precede it.
#[tactic(auto, using(crate::proofs::MarkLemmas::first_or_length, crate::proofs::MarkLemmas::position_within))]
fn blank_len(line: &[u8]) -> usize
    ensures value { result ≡ position_or_len is_written line.now }
    ensures bound { result ≤ length line.now }
{
    first_written(line).unwrap_or(line.len())
}

/// The place of the first blank.
fn first_blank(line: &[u8]) -> Option<usize>
    ensures { result ≡ position is_blank line.now }
{
    line.iter().position(|c| *c == b' ')
}

/// How many characters precede it.
#[tactic(auto, using(crate::proofs::MarkLemmas::first_or_length))]
fn word_len(line: &[u8]) -> usize
    ensures { result ≡ position_or_len is_blank line.now }
{
    first_blank(line).unwrap_or(line.len())
}

/// The first character without a code.
fn bad_character(number: usize, line: &[u8]) -> Spot
    ensures { result ≡ spot number (position_or_len (λ c. is_none (code_of c)) line.now + 1) 1 }
{
    Spot {
        line: number,
        column: coded_len(line) + 1,
        length: 1,
    }
}

/// What isn't blank in the margin.
fn bad_continuation(number: usize, line: &[u8]) -> Spot
    ensures { let at = position_or_len is_written line.now in let written = trim_blanks (columns 1 15 line.now) in
        result ≡ spot number (at + 1) (length written - at) }
{
    let at = blank_len(line);
    Spot {
        line: number,
        column: at + 1,
        length: trim_blanks(columns(line, 1, MARGIN))
            .len()
            .saturating_sub(at),
    }
}

/// What is past column 80, or else all of a line.
fn too_long(number: usize, line: &[u8]) -> Spot
    ensures { let from = if nat_lt 80 (length line.now) then 80 else 0 in
        result ≡ spot number (from + 1) (length line.now - from) }
{
    let from = if line.len() > COLUMNS { COLUMNS } else { 0 };
    Spot {
        line: number,
        column: from + 1,
        length: line.len() - from,
    }
}

/// The character at a place; 0 past the end.
fn byte_at(text: &[u8], place: usize) -> u8
    ensures { result ≡ slice_index text.now place }
{
    match text.get(place) {
        Some(c) => *c,
        None => 0,
    }
}

/// Whether a character before which an argument's text may begin precedes a place.
fn follows_border(operand: &[u8], at: usize) -> bool
    ensures { result ≡ is_one_of (codes "(),+-") (slice_index operand.now (at - 1)) }
{
    is_one_of(b"(),+-", byte_at(operand, at.saturating_sub(1)))
}

/// What there is of a text from a place on.
fn from(text: &[u8], at: usize) -> &[u8]
    ensures { result.now ≡ drop at text.now }
{
    let (_, rest) = text.split_at(text.len().min(at));
    rest
}

/// Whether one text begins with another.
fn begins_with(rest: &[u8], text: &[u8]) -> bool
    ensures { result ≡ bytes_eq (take (length text.now) rest.now) text.now }
{
    let (front, _) = rest.split_at(rest.len().min(text.len()));
    front == text
}

/// Whether the character at a place may be of a name.
fn goes_on(rest: &[u8], place: usize) -> bool
    ensures { result ≡ is_symbol_name_character (slice_index rest.now place) }
{
    is_symbol_name_character(byte_at(rest, place))
}

/// Whether a text stands at a place of an operand as an argument, or a part of one.
fn stands_at(text: &[u8], operand: &[u8], at: usize) -> bool
    ensures { result ≡ stands_at text.now operand.now at }
{
    let rest = from(operand, at);
    follows_border(operand, at) && begins_with(rest, text) && !goes_on(rest, text.len())
}

/// The first place of a text in an argument.
#[tactic(auto, using(crate::proofs::MarkLemmas::find_next, crate::proofs::MarkLemmas::find_end))]
fn place_in_operand(text: &[u8], operand: &[u8]) -> Option<usize>
    ensures value { let places = range_with_len 1 (length operand.now - 1) in
        result ≡ find (stands_at text.now operand.now) places }
    ensures within { IfSome result (λ at. at < length operand.now) }
{
    for at in 1..operand.len() {
        if stands_at(text, operand, at) {
            return Some(at);
        }
    }
    None
}

/// The part of a made statement in the operand that it was made of.
fn part_in(operand: &[u8], found: &OperandPart) -> Option<Span>
    ensures { result ≡ part_in operand.now found.now }
{
    if operand == found.operand.as_slice() {
        return Some(found.part);
    }
    let text = span_text(found.part, found.operand.as_slice());
    let start = place_in_operand(text, operand)?;
    Some(Span {
        start,
        end: start + text.len(),
    })
}

/// The part that was found on a line.
fn found_on(parts: &[OperandPart], line: usize) -> Option<&OperandPart>
    ensures { option_map (λ found. found.now) result ≡ find (λ found. found.line == line) parts.now }
{
    parts.iter().find(|found| found.line == line)
}

/// The part of the operand of a line's statement.
fn part_found(parts: &[OperandPart], line: usize, operand: &[u8]) -> Option<Span>
    ensures { result ≡ part_found parts.now line operand.now }
{
    match found_on(parts, line) {
        Some(found) => part_in(operand, found),
        None => None,
    }
}

/// The part of a statement's operand that is at fault.
fn part_of(
    alloc: Global,
    parts: &[OperandPart],
    kind: SourceKind,
    found: &SourceStmt<'_>,
) -> Result<Option<Span>, AllocError>
    ensures { let it = found.now in let operand = it.stmt.now.operand in
        let other = part_found parts.now it.item.now.line operand in
        let part = if has_exec_fault kind operand then word_at_fault kind operand else other in
        IfOk result (λ found. found ≡ part) }
{
    let operand = found.operand();
    if has_exec_fault(alloc, kind, operand)? {
        return word_at_fault(alloc, kind, operand);
    }
    Ok(part_found(parts, found.item.line, operand))
}

/// Where the fault of a statement is.
fn stmt_spot(
    alloc: Global,
    parts: &[OperandPart],
    kind: SourceKind,
    found: &SourceStmt<'_>,
) -> Result<Spot, AllocError>
    ensures { let it = found.now in
        IfOk result (λ spot. spot ≡ stmt_spot it.items.now parts.now kind it.item.now it.stmt.now) }
{
    if kind == SourceKind::DuplicateSymbol {
        return found.part_spot(alloc, None);
    }
    let part = part_of(alloc, parts, kind, found)?;
    let all = Span { start: 0, end: 0 };
    found.part_spot(alloc, Some(part.unwrap_or(all)))
}

/// Where the fault of a line's statement is; without one the line's beginning.
fn statement_spot(
    alloc: Global,
    items: &[Item],
    parts: &[OperandPart],
    kind: SourceKind,
    number: usize,
) -> Result<Spot, AllocError>
    ensures { let beginning = spot number 1 0 in
        let of_item = λ (it : ItemValue). option_map_or (stmt_spot items.now parts.now kind it) it.stmt beginning in
        IfOk result (λ spot. spot ≡ option_map_or of_item (slice_get items.now (number - 1)) beginning) }
{
    let beginning = Spot {
        line: number,
        column: 1,
        length: 0,
    };
    let Some(item) = items.get(number.saturating_sub(1)) else {
        return Ok(beginning);
    };
    match &item.stmt {
        Some(stmt) => stmt_spot(alloc, parts, kind, &SourceStmt { items, item, stmt }),
        None => Ok(beginning),
    }
}

/// A line by its number, empty past the end.
fn line_at(lines: &[Text], number: usize) -> &[u8]
    ensures { result.now ≡ unwrap_or (slice_get lines.now (number - 1)) [] }
{
    match lines.get(number.saturating_sub(1)) {
        Some(line) => line.as_slice(),
        None => &[],
    }
}

/// Where a fault is, which is of this line.
fn spot_by(
    alloc: Global,
    items: &[Item],
    parts: &[OperandPart],
    line: &[u8],
    fault: FaultyLine,
) -> Result<Spot, AllocError>
    ensures { IfOk result (λ spot. spot ≡ spot_by items.now parts.now line.now fault.line fault.kind) }
{
    let number = fault.line;
    match fault.kind {
        SourceKind::BadCharacter => Ok(bad_character(number, line)),
        SourceKind::BadName => Ok(Spot {
            line: number,
            column: 1,
            length: word_len(line),
        }),
        SourceKind::BadContinuation => Ok(bad_continuation(number, line)),
        SourceKind::TooLong => Ok(too_long(number, line)),
        SourceKind::NoEnd => Ok(Spot {
            line: number,
            column: 1,
            length: 2,
        }),
        kind => statement_spot(alloc, items, parts, kind, number),
    }
}

/// What the statement of a line lacks.
fn missing_in_item(alloc: Global, item: &Item) -> Result<Vec<u8>, AllocError>
    ensures { let lacks = option_map_or (λ (s : StmtValue). missing s.operand) item.now.stmt [] in
        IfOk result (λ text. text.items ≡ lacks) }
{
    match &item.stmt {
        Some(stmt) => missing(alloc, stmt.operand.as_slice()),
        None => Ok(Vec::new(alloc)),
    }
}

/// What the statement of a line lacks, where that is its fault.
fn missing_by_kind(
    alloc: Global,
    kind: SourceKind,
    items: &[Item],
    number: usize,
) -> Result<Vec<u8>, AllocError>
    ensures { let item = slice_get items.now (number - 1) in
        IfOk result (λ text. text.items ≡ missing_by_kind kind item) }
{
    match (kind, items.get(number.saturating_sub(1))) {
        (SourceKind::MissingOption, Some(item)) => missing_in_item(alloc, item),
        _ => Ok(Vec::new(alloc)),
    }
}

/// The part of a faulty line that is at fault.
#[tactic(auto, unfolding(crate::specs::Marks::mark_of))]
fn mark_of(
    alloc: Global,
    lines: &[Text],
    items: &[Item],
    parts: &[OperandPart],
    fault: FaultyLine,
) -> Result<Mark, AllocError>
    ensures { IfOk result (λ mark. mark ≡ mark_of lines.now items.now parts.now fault) }
{
    let line = line_at(lines, fault.line);
    let missing = missing_by_kind(alloc, fault.kind, items, fault.line)?;
    Ok(Mark {
        kind: fault.kind,
        spot: spot_by(alloc, items, parts, line, fault)?,
        missing: Text::from_vec(missing),
    })
}

/// The marks of faulty lines.
fn marks_in(
    alloc: Global,
    lines: &[Text],
    items: &[Item],
    parts: &[OperandPart],
    faults: &[FaultyLine],
) -> Result<Vec<Mark>, AllocError>
    ensures { IfOk result (λ marks. marks.items ≡ map (mark_of lines.now items.now parts.now) faults.now) }
{
    let mut marks = Vec::new(alloc);
    for fault in faults {
        marks.push(mark_of(alloc, lines, items, parts, *fault)?)?;
    }
    Ok(marks)
}

/// Where on its line the part is that is at fault, for each faulty line of a source that was read and placed.
#[tactic(auto, using(cx_asm_pass2::specs::Facts::Whole::whole_is))]
pub(crate) fn marks_placed(
    alloc: Global,
    lines: &[Text],
    read: &Source,
    placed: &Placed<'_, '_, '_>,
    kinds: &Kinds,
    faults: &[FaultyLine],
) -> Result<Vec<Mark>, AllocError>
    requires places { IsPlaced (final_state placed.now.made.now) placed.now.places.now }
    requires statements { placed.now.statements.now ≡ statements_of placed.now.made.now }
    requires kinds { kinds.now.entries ≡ kinds_of faults.now }
    ensures { let parts = parts_at_fault placed.now.made.now faults.now in
        IfOk result (λ marks. marks.items ≡ map (mark_of lines.now read.now.items parts) faults.now) }
{
    let parts = operand_parts_in(alloc, placed.places, kinds, placed.statements)?;
    marks_in(alloc, lines, read.items.as_slice(), &parts, faults)
}
