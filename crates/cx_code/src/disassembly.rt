//! Disassembly of a text.

ghost use Rattle.std.specs.Prelude.{◌≡◌, IfOk, IsOk, length};
ghost use Rattle.cx_code.specs.Reading.{canonical};
ghost use Rattle.cx_code.specs.Lines.{span_bytes, disassembled_line, lines};

use crate::image::{Bytes, Span, SpanKind};
use crate::instruction::Inst;
use crate::spelling::{encode, reading};
use std::alloc::{AllocError, Global};

/// What a line of a disassembly stands for.
#[derive(Drop)]
pub enum LineContent {
    /// An instruction, which the bytes spell.
    Code(Inst),
    /// Bytes, perhaps none.
    Data(Bytes),
    /// This many bytes that nothing was written to.
    Space(u32),
}

/// A line of a disassembly: what begins at an offset. An instruction, bytes or space of any length is one line.
#[derive(Drop)]
pub struct Line {
    /// The offset of its first byte in the text.
    pub at: u32,
    /// What the span there holds.
    pub what: LineContent,
}

/// The instruction whose canonical spelling these bytes are, all of them.
#[tactic(auto, unfolding(crate::specs::Reading::canonical))]
fn canonical(bytes: &[u8]) -> Option<Inst>
    ensures { result ≡ canonical bytes.now }
{
    let inst = reading(bytes)?;
    (encode(&inst).as_slice() == bytes).then_some(inst)
}

/// The bytes of a span that lie in the text.
fn span_bytes<'a>(text: &'a [u8], span: Span) -> &'a [u8]
    ensures { result.now ≡ span_bytes text.now span }
{
    let (_, after) = text.split_at(text.len().min(span.start as usize));
    let (bytes, _) = after.split_at(after.len().min(span.len as usize));
    bytes
}

/// The line of a span.
#[tactic(auto, unfolding(crate::specs::Lines::disassembled_line))]
fn disassembled_line(alloc: Global, text: &[u8], span: Span) -> Result<Line, AllocError>
    ensures { IfOk result (λ line. line ≡ disassembled_line text.now span) }
{
    let bytes = span_bytes(text, span);
    let code = match span.kind {
        SpanKind::Code => canonical(bytes).map(LineContent::Code),
        SpanKind::Data => None,
        SpanKind::Space => Some(LineContent::Space(span.len)),
    };
    let what = match code {
        Some(what) => what,
        None => LineContent::Data(Bytes::from_vec(bytes.to_vec(alloc)?)),
    };
    Ok(Line {
        at: span.start,
        what,
    })
}

/// A line for each span, in order. A code span is an instruction where its bytes are exactly a canonical spelling, and
/// data otherwise: so is a shift whose third register isn't zero. Bytes past the text's end are left out of code and
/// data spans, also before a code span is judged; with none left the line is data without bytes. A space span keeps its
/// length.
///
/// An error comes only where an allocation failed; without spans it takes no memory.
pub fn disassemble(alloc: Global, text: &[u8], spans: &[Span]) -> Result<Vec<Line>, AllocError>
    ensures lines { IfOk result (λ found. found.items ≡ lines text.now spans.now) }
    ensures empty { length spans.now ≡ 0 → IsOk result }
{
    let mut found = Vec::new(alloc);
    for span in spans {
        found.push(disassembled_line(alloc, text, *span)?)?;
    }
    Ok(found)
}
