//! What is in the control section, in the making.

ghost use Rattle.std.specs.Prelude.{◌≡◌, ◌++◌, ◌∷◌, [], IfOk, OnOk};
ghost use Rattle.std.specs.List.{repeat};
ghost use Rattle.cx_asm.specs.Laws.SectionLines.{IsWithin, WordsApart};
ghost use Rattle.cx_asm.specs.Parts.Kept.{FitsSection, kept};
ghost use Rattle.cx_asm.specs.Resolving.{data_line, join_sections, line as resolved_line, empty_section, relocated_offsets, space_line, standing as section_of};
ghost use Rattle.cx_code.specs.declared.disassembly.LineContent.TheVariants.{Code};

use crate::pass::SecondPass;
use cx_asm_expressions::ConstantBytes;
use cx_asm_image::{ResolvedLines, push_words};
use cx_code::{Bytes, Inst, Line, LineContent};
use std::alloc::{AllocError, Global};
use std::marker::Model;

/// The resolved lines of a control section, and the offsets of its relocated words.
#[derive(Drop)]
pub(crate) struct Standing {
    pub(crate) lines: ResolvedLines,
    pub(crate) relocs: Vec<u32>,
}

impl Model for Standing {
    ghost use Rattle.cx_asm.specs.Resolving.{Standing as StandingValue, standing};

    ghost Value = { StandingValue };

    ghost view = { λ s. standing s.lines s.relocs.items };
}

/// `copies` copies of bytes.
#[tactic(auto, using(crate::proofs::JoinLemmas::copies_more, crate::proofs::JoinLemmas::copies_empty))]
fn copies(alloc: Global, bytes: &[u8], count: u32) -> Result<Vec<u8>, AllocError>
    ensures { IfOk result (λ found. found.items ≡ repeat count bytes.now) }
{
    let mut found = Vec::new(alloc);
    if bytes.is_empty() {
        return Ok(found);
    }
    for copy in 0..count {
        let _ = copy;
        found.extend_from_slice(bytes)?;
    }
    Ok(found)
}

/// Appends the offsets of relocated words, one for each copy.
fn push_relocated(
    relocs: &mut Vec<u32>,
    at: u128,
    count: u32,
    is_relocated: bool,
) -> Result<(), AllocError>
    requires { WordsApart 0 (relocated_offsets at count is_relocated) 65536 }
    ensures { OnOk result (relocs.new.items ≡ relocs.old.items ++ relocated_offsets at count is_relocated) }
{
    if !is_relocated || count == 0 {
        return Ok(());
    }
    push_words(relocs, at as u32, count)
}

impl Standing {
    /// Nothing yet. It takes no memory.
    pub(crate) fn new(alloc: Global) -> Standing
        ensures { result ≡ empty_section }
    {
        Standing {
            lines: ResolvedLines::new(alloc),
            relocs: Vec::new(alloc),
        }
    }

    /// Appends a line, which begins at or past the end of those before it.
    fn push(&mut self, line: Line) -> Result<(), AllocError>
        requires { IsWithin 0 (join_sections self.old (section_of (line ∷ []) [])) 65536 }
        ensures { OnOk result (self.new ≡ join_sections self.old (section_of (line ∷ []) [])) }
    {
        self.lines.push(line)
    }
}

impl SecondPass<'_, '_, '_> {
    /// Appends the copies of a constant at an offset, if they are kept.
    pub(crate) fn push_data(
        &self,
        at: u128,
        count: u32,
        made: &ConstantBytes,
        standing: &mut Standing,
    ) -> Result<(), AllocError>
        requires { let words = relocated_offsets at count made.now.is_relocated in
            FitsSection self.now.keeps standing.old (section_of (data_line at (repeat count made.now.bytes)) words) }
        ensures { let words = relocated_offsets at count made.now.is_relocated in
            let stands = section_of (data_line at (repeat count made.now.bytes)) words in
            OnOk result (standing.new ≡ kept self.now.keeps standing.old stands) }
    {
        if !self.keeps {
            return Ok(());
        }
        push_relocated(&mut standing.relocs, at, count, made.is_relocated())?;
        let bytes = copies(self.alloc, made.as_slice(), count)?;
        if bytes.is_empty() {
            return Ok(());
        }
        standing.push(Line {
            at: at as u32,
            what: LineContent::Data(Bytes::from_vec(bytes)),
        })
    }

    /// Appends a space at an offset, where it has bytes, if it is kept.
    pub(crate) fn push_space(
        &self,
        at: u128,
        size: u128,
        standing: &mut Standing,
    ) -> Result<(), AllocError>
        requires { FitsSection self.now.keeps standing.old (section_of (space_line at size) []) }
        ensures { let stands = section_of (space_line at size) [] in
            OnOk result (standing.new ≡ kept self.now.keeps standing.old stands) }
    {
        if !self.keeps {
            return Ok(());
        }
        if size == 0 {
            return Ok(());
        }
        standing.push(Line {
            at: at as u32,
            what: LineContent::Space(size as u32),
        })
    }

    /// Appends an instruction at an offset, if it is kept.
    pub(crate) fn push_code(
        &self,
        at: u128,
        inst: Inst,
        standing: &mut Standing,
    ) -> Result<(), AllocError>
        requires { FitsSection self.now.keeps standing.old (section_of (resolved_line at (Code inst) ∷ []) []) }
        ensures { let stands = section_of (resolved_line at (Code inst) ∷ []) [] in
            OnOk result (standing.new ≡ kept self.now.keeps standing.old stands) }
    {
        if !self.keeps {
            return Ok(());
        }
        standing.push(Line {
            at: at as u32,
            what: LineContent::Code(inst),
        })
    }
}
