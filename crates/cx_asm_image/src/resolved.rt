//! Resolved lines, appended in address order.

ghost use Rattle.std.specs.Prelude.{◌≡◌, ◌↔◌, ◌≤◌, ◌++◌, ◌∷◌, [], ℕ, IsTrue, OnOk, OnErr};
ghost use Rattle.cx_asm_image.specs.Resolved.{AreApart, end_after, offset_after, size_of};

use cx_code::{Line, LineContent, encode};
use std::alloc::{AllocError, Global};
use std::marker::Model;

/// The most bytes that the text of a program may have.
pub const LARGEST_TEXT: u32 = 65_536;

/// How many bytes are there.
pub(crate) fn size_of(what: &LineContent) -> usize
    ensures { result ≡ size_of what.now }
{
    match what {
        LineContent::Code(inst) => encode(inst).as_slice().len(),
        LineContent::Data(bytes) => bytes.as_slice().len(),
        LineContent::Space(count) => *count as usize,
    }
}

/// Resolved lines in address order, no two of which share a byte.
#[derive(Drop)]
pub struct ResolvedLines {
    lines: Vec<Line>,
    end: u32,
}

impl Model for ResolvedLines {
    ghost use Rattle.std.specs.Prelude.{List};
    ghost use Rattle.cx_code.specs.declared.disassembly.Line.{Line};
    ghost use Rattle.cx_asm_image.specs.Parts.Making.{IsEndOf};

    ghost Value = { List Line };

    ghost view = { λ made. made.lines.items };

    ghost invariant = { λ made. IsEndOf made.lines.items made.end };
}

impl ResolvedLines {
    /// A list without a line. It takes no memory.
    pub fn new(alloc: Global) -> ResolvedLines
        ensures { result ≡ [] }
    {
        ResolvedLines {
            lines: Vec::new(alloc),
            end: 0,
        }
    }

    /// The offset of the byte after the last line, 0 where there is no line.
    pub fn end(&self) -> u32
        ensures value { result ≡ end_after 0 self.now }
        ensures apart { AreApart 0 self.now result }
    {
        self.end
    }

    /// Whether a line may be appended: whether it begins at or past the end of those before it, and ends at or before
    /// offset 65,536. It takes no memory.
    pub fn has_place_for(&self, line: &Line) -> bool
        ensures { IsTrue result ↔ ((end_after 0 self.now ≤ line.now.at) × (offset_after line.now ≤ 65536)) }
    {
        let size = size_of(&line.what);
        let largest = LARGEST_TEXT as usize;
        self.end <= line.at && size <= largest && line.at as usize + size <= largest
    }

    /// Appends a line. It begins at or past the end of those before it, and ends at or before offset 65,536.
    ///
    /// An error comes only where an allocation failed; then all is as before.
    pub fn push(&mut self, line: Line) -> Result<(), AllocError>
        requires after { end_after 0 self.old ≤ line.at }
        requires fits { offset_after line ≤ 65536 }
        ensures pushed { OnOk result (self.new ≡ self.old ++ line ∷ []) }
        ensures err { OnErr result (self.new ≡ self.old) }
    {
        let end = line.at + size_of(&line.what) as u32;
        self.lines.push(line)?;
        self.end = end;
        Ok(())
    }

    /// The lines as a `Vec`; they don't overlap, and lie in any section that has room for them. It takes no memory.
    pub fn into_vec(self) -> Vec<Line>
        ensures value { result.items ≡ self }
        ensures apart { (size : ℕ) → end_after 0 self ≤ size → AreApart 0 self size }
    {
        let ResolvedLines { lines, .. } = self;
        lines
    }
}
