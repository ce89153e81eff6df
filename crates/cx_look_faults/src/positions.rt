//! Where the parts of a statement stand.

ghost use Rattle.std.specs.Prelude.{◌≡◌, ◌≤◌, ◌+◌, ◌-◌, ◌++◌, IfOk, OnOk, drop, length, take, true};
ghost use Rattle.std.specs.List.{flat_map, position, prefix_len};
ghost use Rattle.std.specs.Option.{option_map_or};
ghost use Rattle.cx_source.specs.Lines.{columns, is_written};
ghost use Rattle.cx_source.specs.Statements.{is_continued};
ghost use Rattle.cx_look_faults.specs.Faults.{continuations};
ghost use Rattle.cx_look_faults.specs.Marks.{part_spot, positions_on, skip_unwritten, spot, spot_at};
ghost use Rattle.cx_look_faults.specs.Parts.Names.{spot_in};
ghost use Rattle.cx_look_faults.specs.declared.spans.Span.{Span as SpanValue};

use crate::spans::Span;
use cx_source::{Item, Stmt, is_continued};
use std::alloc::{AllocError, Global};

/// The last column on which a statement is written.
const LAST: usize = 71;

/// The column on which a continuation line begins.
const CONTINUED: usize = 16;

/// A part of a line, all of it in one piece.
#[derive(Clone, Copy, Debug, PartialEq, Eq)]
pub struct Spot {
    /// The line's number in the source, counted from 1.
    pub line: usize,
    /// The column of its first byte, counted from 1.
    pub column: usize,
    /// How many bytes it has.
    pub length: usize,
}

/// A character of a statement, and where it stands.
#[derive(Clone, Copy, Debug, PartialEq, Eq)]
pub struct Position {
    /// The line's number, counted from 1.
    pub line: usize,
    /// Its column, counted from 1.
    pub column: usize,
    /// The character.
    pub byte: u8,
}

/// The columns from `first` to `last`, counted from 1, as far as a text goes.
#[tactic(auto, using(crate::proofs::MarkLemmas::columns_len))]
pub(crate) fn columns(text: &[u8], first: usize, last: usize) -> &[u8]
    ensures value { result.now ≡ columns first last text.now }
    ensures bound { length result.now ≤ last + 1 - first }
{
    let (front, _) = text.split_at(text.len().min(last));
    let (_, columns) = front.split_at(front.len().min(first.saturating_sub(1)));
    columns
}

/// Adds the characters of a line from a column on.
#[tactic(auto, unfolding(crate::specs::Marks::positions_on))]
fn push_written(positions: &mut Vec<Position>, first: usize, item: &Item) -> Result<(), AllocError>
    ensures { OnOk result (positions.new.items ≡ positions.old.items ++ positions_on first item.now) }
{
    let text = columns(item.text.as_slice(), first, LAST);
    let mut column = first;
    for c in text {
        positions.push(Position {
            line: item.line,
            column,
            byte: *c,
        })?;
        column += 1;
    }
    Ok(())
}

/// How many lines there are before the first that isn't continued.
fn continued_count(items: &[Item]) -> usize
    ensures count { result ≡ prefix_len (λ it. is_continued true it.text) items.now }
    ensures bound { result ≤ length items.now }
{
    for (i, item) in items.iter().enumerate() {
        if !is_continued(true, item.text.as_slice()) {
            return i;
        }
    }
    items.len()
}

/// The lines that continue the one of a number.
pub(crate) fn continuations(items: &[Item], number: usize) -> &[Item]
    ensures { result.now ≡ continuations items.now number }
{
    let (_, from) = items.split_at(items.len().min(number.saturating_sub(1)));
    let (_, after) = items.split_at(items.len().min(number));
    let (lines, _) = after.split_at(after.len().min(continued_count(from)));
    lines
}

/// Adds the characters of lines that continue one.
fn push_continued(positions: &mut Vec<Position>, items: &[Item]) -> Result<(), AllocError>
    ensures { OnOk result (positions.new.items ≡ positions.old.items ++ flat_map (positions_on 16) items.now) }
{
    for item in items {
        push_written(positions, CONTINUED, item)?;
    }
    Ok(())
}

/// A statement of a source: the source's lines, and the one that it begins on.
#[derive(Clone, Copy)]
pub(crate) struct SourceStmt<'a> {
    /// The source's lines.
    pub(crate) items: &'a [Item],
    /// The line that it begins on.
    pub(crate) item: &'a Item,
    /// The statement.
    pub(crate) stmt: &'a Stmt,
}

/// The place of the first character that isn't blank.
fn first_written(positions: &[Position]) -> Option<usize>
    ensures { result ≡ position (λ p. is_written p.byte) positions.now }
{
    positions.iter().position(|position| position.byte != b' ')
}

/// These characters from the first that isn't blank on.
#[tactic(auto, using(crate::proofs::MarkLemmas::first_or_length))]
fn skip_unwritten(all: &[Position]) -> &[Position]
    ensures { result.now ≡ skip_unwritten all.now }
{
    let blanks = first_written(all).unwrap_or(all.len());
    let (_, written) = all.split_at(all.len().min(blanks));
    written
}

/// These characters before a place.
fn before(all: &[Position], end: usize) -> &[Position]
    ensures { result.now ≡ take end all.now }
{
    let (front, _) = all.split_at(all.len().min(end));
    front
}

/// These characters from a place on.
fn from(all: &[Position], start: usize) -> &[Position]
    ensures { result.now ≡ drop start all.now }
{
    let (_, back) = all.split_at(all.len().min(start));
    back
}

/// What there is of some characters on the first one's line.
fn spot_at(here: &[Position], otherwise: Spot) -> Spot
    ensures { result ≡ spot_at here.now otherwise }
{
    match here.first() {
        Some(first) => Spot {
            line: first.line,
            column: first.column,
            length: here
                .iter()
                .filter(|position| position.line == first.line)
                .count(),
        },
        None => otherwise,
    }
}

/// A part of the characters of an operand, or without one those of a name.
fn part_among<'a>(
    operand: &'a [Position],
    name: &'a [Position],
    part: Option<Span>,
) -> &'a [Position]
    ensures { let of = λ (it : SpanValue). drop it.start (take it.end operand.now) in
        result.now ≡ option_map_or of part name.now }
{
    match part {
        Some(part) => from(before(operand, part.end), part.start),
        None => name,
    }
}

impl SourceStmt<'_> {
    /// The operand.
    pub(crate) fn operand(&self) -> &[u8]
        ensures { result.now ≡ self.now.stmt.now.operand }
    {
        self.stmt.operand.as_slice()
    }

    /// The characters of the statement.
    fn characters(&self, alloc: Global) -> Result<Vec<Position>, AllocError>
        ensures { let it = self.now in let more = continuations it.items.now it.item.now.line in
            IfOk result (λ all. all.items ≡ positions_on 1 it.item.now ++ flat_map (positions_on 16) more) }
    {
        let mut all = Vec::new(alloc);
        push_written(&mut all, 1, self.item)?;
        push_continued(&mut all, continuations(self.items, self.item.line))?;
        Ok(all)
    }

    /// The operation, or else the name; these are the characters of the statement.
    fn operation_spot(&self, all: &[Position]) -> Spot
        ensures { let it = self.now.stmt.now in let name = take (length it.name) all.now in
            let after = skip_unwritten (drop (length it.name) all.now) in
            let named = spot_at name (spot self.now.item.now.line 1 0) in
            result ≡ spot_at (take (length it.operation) after) named }
    {
        let name = self.stmt.name.as_slice().len();
        let operation = self.stmt.operation.as_slice().len();
        let beginning = Spot {
            line: self.item.line,
            column: 1,
            length: 0,
        };
        let named = spot_at(before(all, name), beginning);
        spot_at(before(skip_unwritten(from(all, name)), operation), named)
    }

    /// The characters of a part of the operand, or without one of the name; these are those of the statement.
    fn part_of<'a>(&self, all: &'a [Position], part: Option<Span>) -> &'a [Position]
        ensures { let it = self.now.stmt.now in let name = take (length it.name) all.now in
            let after = skip_unwritten (drop (length it.name) all.now) in
            let operand = skip_unwritten (drop (length it.operation) after) in
            let of = λ (it : SpanValue). drop it.start (take it.end operand) in
            result.now ≡ option_map_or of part name }
    {
        let name = self.stmt.name.as_slice().len();
        let operation = self.stmt.operation.as_slice().len();
        let after = skip_unwritten(from(all, name));
        let operand = skip_unwritten(from(after, operation));
        part_among(operand, before(all, name), part)
    }

    /// The part of the operand, or without one the name; of what has no character the operation, or else the name. These
    /// are the characters of the statement.
    fn spot_in(&self, all: &[Position], part: Option<Span>) -> Spot
        ensures { result ≡ spot_in self.now.item.now.line self.now.stmt.now part all.now }
    {
        spot_at(self.part_of(all, part), self.operation_spot(all))
    }

    /// A part of the operand, or without one the name; of what has no character the operation, or else the name.
    #[tactic(auto, unfolding(crate::specs::Marks::part_spot))]
    pub(crate) fn part_spot(&self, alloc: Global, part: Option<Span>) -> Result<Spot, AllocError>
        ensures { let it = self.now in
            IfOk result (λ spot. spot ≡ part_spot it.items.now it.item.now it.stmt.now part) }
    {
        let all = self.characters(alloc)?;
        Ok(self.spot_in(&all, part))
    }
}
