//! Texts cut into parts, and what a part is by itself.

ghost use Rattle.std.specs.Prelude.{◌≡◌, ◌≤◌, ◌<◌, ◌+◌, ◌∷◌, ◌++◌, ◌&&◌, ◌^◌, [], IfOk, OnOk, drop, false, filter, nat_le, nat_lt, option_map, slice_get, take, true, unwrap_or};
ghost use Rattle.std.specs.List.{list_any};
ghost use Rattle.cx_source.specs.Marks.{outside_apostrophes};
ghost use Rattle.cx_translate.specs.Pieces.{depth_after};
ghost use Rattle.cx_look_faults.specs.Spans.{cells_from, cells_of, is_one_of, separates, span, spans_from, spans_of, span_text, zeros_from};

use cx_source::outside;
use std::alloc::{AllocError, Global};

/// Where the text of an operand is cut into parts.
#[derive(Clone, Copy, Debug, PartialEq, Eq)]
pub enum Cut {
    /// Where no word of an EXEC is: at blanks and parentheses, and in parentheses.
    Words,
    /// At the commas between operands.
    Operands,
    /// At commas and parentheses.
    Subfields,
    /// At commas, parentheses and signs.
    Terms,
}

/// A part of a text: from one place, counted from 0, to before another.
#[derive(Clone, Copy, Debug, PartialEq, Eq)]
pub struct Span {
    /// The place of its first byte.
    pub start: usize,
    /// The place after its last byte.
    pub end: usize,
}

/// A character of a text that is cut.
#[derive(Clone, Copy, Debug, PartialEq, Eq)]
pub struct Cell {
    /// The character.
    pub byte: u8,
    /// Whether it separates parts.
    pub separates: bool,
}

/// How many parentheses are open after a character.
#[tactic(auto, unfolding(cx_translate::specs::Pieces::depth_after))]
fn depth_after(depth: usize, is_outside: bool, c: u8) -> usize
    requires { depth + 1 < 2 ^ 64 }
    ensures value { result ≡ depth_after depth is_outside c }
    ensures bound { result ≤ depth + 1 }
{
    match c {
        b'(' if is_outside => depth + 1,
        b')' if is_outside => depth.saturating_sub(1),
        _ => depth,
    }
}

/// Whether a character is one of some.
pub(crate) fn is_one_of(some: &[u8], c: u8) -> bool
    ensures { result ≡ is_one_of some.now c }
{
    some.iter().any(|one| *one == c)
}

/// Whether a character separates parts.
fn separates(cut: Cut, depth: usize, is_outside: bool, c: u8) -> bool
    ensures { result ≡ separates cut depth is_outside c }
{
    match cut {
        Cut::Words => depth != 0 || (is_outside && is_one_of(b" ()", c)),
        Cut::Operands => is_outside && depth == 0 && c == b',',
        Cut::Subfields => is_outside && is_one_of(b",()", c),
        Cut::Terms => is_outside && is_one_of(b",()+-", c),
    }
}

/// Whether the character at a place lies outside apostrophes.
fn is_outside(outs: &[bool], at: usize) -> bool
    ensures { result ≡ unwrap_or (slice_get outs.now at) false }
{
    match outs.get(at) {
        Some(out) => *out,
        None => false,
    }
}

/// The characters of a text, each with whether it separates parts.
pub(crate) fn cells_of(alloc: Global, cut: Cut, text: &[u8]) -> Result<Vec<Cell>, AllocError>
    ensures { IfOk result (λ cells. cells.items ≡ cells_of cut text.now) }
{
    let outs = outside(alloc, text)?;
    let mut cells = Vec::new(alloc);
    let mut depth = 0;
    for (i, c) in text.iter().enumerate() {
        let out = is_outside(outs.as_slice(), i);
        cells.push(Cell {
            byte: *c,
            separates: separates(cut, depth, out, *c),
        })?;
        depth = depth_after(depth, out, *c);
    }
    Ok(cells)
}

/// Adds a part that isn't empty.
fn push_written(spans: &mut Vec<Span>, start: usize, end: usize) -> Result<(), AllocError>
    ensures { let found = filter (λ part. nat_lt part.start part.end) (span start end ∷ []) in
        OnOk result (spans.new.items ≡ spans.old.items ++ found) }
{
    if start < end {
        spans.push(Span { start, end })?;
    }
    Ok(())
}

/// The parts between these characters that aren't empty.
fn spans_between(alloc: Global, cells: &[Cell]) -> Result<Vec<Span>, AllocError>
    ensures { let found = filter (λ part. nat_lt part.start part.end) (spans_from 0 0 cells.now) in
        IfOk result (λ spans. spans.items ≡ found) }
{
    let mut spans = Vec::new(alloc);
    let mut start = 0;
    for (i, cell) in cells.iter().enumerate() {
        if cell.separates {
            push_written(&mut spans, start, i)?;
            start = i + 1;
        }
    }
    push_written(&mut spans, start, cells.len())?;
    Ok(spans)
}

/// The parts of a text that aren't empty.
pub(crate) fn spans_of(alloc: Global, cut: Cut, text: &[u8]) -> Result<Vec<Span>, AllocError>
    ensures { IfOk result (λ spans. spans.items ≡ spans_of cut text.now) }
{
    let cells = cells_of(alloc, cut, text)?;
    spans_between(alloc, &cells)
}

/// Whether a place is in one of some parts.
fn is_covered(kept: &[Span], at: usize) -> bool
    ensures { result ≡ list_any (λ part. nat_le part.start at && nat_lt at part.end) kept.now }
{
    kept.iter().any(|part| part.start <= at && at < part.end)
}

/// A text with 0 in place of each of its parts but some.
pub(crate) fn with_zeros(
    alloc: Global,
    kept: &[Span],
    cells: &[Cell],
) -> Result<Vec<u8>, AllocError>
    ensures { IfOk result (λ text. text.items ≡ zeros_from kept.now true 0 cells.now) }
{
    let mut text = Vec::new(alloc);
    let mut is_new = true;
    for (i, cell) in cells.iter().enumerate() {
        if cell.separates || is_covered(kept, i) {
            text.push(cell.byte)?;
        } else if is_new {
            text.push(b'0')?;
        }
        is_new = cell.separates;
    }
    Ok(text)
}

/// The text of a part.
pub(crate) fn span_text(span: Span, text: &[u8]) -> &[u8]
    ensures { result.now ≡ span_text span text.now }
{
    let (front, _) = text.split_at(text.len().min(span.end));
    let (_, part) = front.split_at(front.len().min(span.start));
    part
}
