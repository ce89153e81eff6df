//! Text and spans of resolved lines.

ghost use Rattle.std.specs.Prelude.{◌≡◌, ◌≤◌, ◌+◌, ◌-◌, ◌++◌, IfOk, OnOk, length, map, replicate};
ghost use Rattle.cx_asm_image.specs.Resolved.{AreApart, bytes_of, offset_after, size_of};
ghost use Rattle.cx_asm_image.specs.Parts.Making.{AreSpelled, IsSpelled};
ghost use Rattle.cx_asm_image.specs.Spans.{kind_of, span_of};
ghost use Rattle.cx_asm_image.specs.Text.{section_text};

use crate::resolved::size_of;
use cx_code::{Line, LineContent, Span, SpanKind, encode};
use std::alloc::{AllocError, Global};

/// Appends the bytes that are there.
fn push_bytes(text: &mut Vec<u8>, what: &LineContent) -> Result<(), AllocError>
    requires { length text.old.items + size_of what.now ≤ 65536 }
    ensures bytes { OnOk result (text.new.items ≡ text.old.items ++ bytes_of what.now) }
    ensures spelled { OnOk result (IsSpelled what.now) }
{
    match what {
        LineContent::Code(inst) => text.extend_from_slice(encode(inst).as_slice()),
        LineContent::Data(bytes) => text.extend_from_slice(bytes.as_slice()),
        LineContent::Space(count) => text.resize(text.len() + *count as usize, 0),
    }
}

/// Appends zeros up to a line, and its bytes.
fn push_line(text: &mut Vec<u8>, line: &Line) -> Result<(), AllocError>
    requires after { length text.old.items ≤ line.now.at }
    requires fits { offset_after line.now ≤ 65536 }
    ensures bytes { OnOk result (text.new.items
        ≡ (text.old.items ++ replicate (line.now.at - length text.old.items) 0) ++ bytes_of line.now.what) }
    ensures spelled { OnOk result (IsSpelled line.now.what) }
{
    text.resize(line.at as usize, 0)?;
    push_bytes(text, &line.what)
}

/// The text of lines that don't overlap in a section of a size.
#[tactic(auto, unfolding(crate::specs::Text::section_text))]
pub(crate) fn section_text(alloc: Global, lines: &[Line], size: u32) -> Result<Vec<u8>, AllocError>
    requires apart { AreApart 0 lines.now size }
    requires fits { size ≤ 65536 }
    ensures text { IfOk result (λ text. text.items ≡ section_text lines.now size) }
    ensures spelled { OnOk result (AreSpelled lines.now) }
{
    let mut text = Vec::with_capacity(alloc, size as usize)?;
    for line in lines {
        push_line(&mut text, line)?;
    }
    text.resize(size as usize, 0)?;
    Ok(text)
}

/// The kind of what is at a place.
fn kind_of(what: &LineContent) -> SpanKind
    ensures { result ≡ kind_of what.now }
{
    match what {
        LineContent::Code(_) => SpanKind::Code,
        LineContent::Data(_) => SpanKind::Data,
        LineContent::Space(_) => SpanKind::Space,
    }
}

/// A line's place and kind.
fn span_of(line: &Line) -> Span
    requires { offset_after line.now ≤ 65536 }
    ensures { result ≡ span_of line.now }
{
    Span {
        start: line.at,
        len: size_of(&line.what) as u32,
        kind: kind_of(&line.what),
    }
}

/// A span for each of some lines that don't overlap in a section of a size.
pub(crate) fn spans_of(alloc: Global, lines: &[Line], size: u32) -> Result<Vec<Span>, AllocError>
    requires apart { AreApart 0 lines.now size }
    requires fits { size ≤ 65536 }
    ensures { IfOk result (λ spans. spans.items ≡ map span_of lines.now) }
{
    let mut spans = Vec::with_capacity(alloc, lines.len())?;
    for line in lines {
        spans.push(span_of(line))?;
    }
    Ok(spans)
}
