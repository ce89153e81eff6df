//! An assembled section.

ghost use Rattle.std.specs.Prelude.{◌≡◌, ◌≤◌, IfOk, drop, length, take};
ghost use Rattle.cx_asm_image.specs.Assembled.{IsAssembled, assembled_parts};
ghost use Rattle.cx_asm_image.specs.Laws.Cover.{IsTextOf};
ghost use Rattle.cx_asm_image.specs.Resolved.{AreApart};

use crate::text::{section_text, spans_of};
use cx_code::{Bytes, Image, Line, Offsets, Span, disassemble};
use std::alloc::{AllocError, Global};
use std::marker::Model;

/// A section's resolved lines, spans and image. `new` alone makes one, so text and spans give the resolved lines again.
#[derive(Drop)]
pub struct Assembled {
    resolved: Vec<Line>,
    spans: Vec<Span>,
    image: Image,
}

impl Model for Assembled {
    ghost use Rattle.cx_asm_image.specs.Assembled.{AssembledParts, IsAssembled};

    ghost Value = { AssembledParts };

    ghost view = { λ made. record { resolved = made.resolved.items; spans = made.spans.items; image = made.image } };

    ghost invariant = { λ made. IsAssembled
        (record { resolved = made.resolved.items; spans = made.spans.items; image = made.image }) };
}

impl Assembled {
    /// The section of these resolved lines, which ascend and share no byte, and of a size, in bytes, with the offsets
    /// of its relocated words, its entry and its working storage.
    ///
    /// An error comes only where an allocation failed.
    pub fn new(
        resolved: Vec<Line>,
        size: u32,
        relocs: Offsets,
        entry: u32,
        stg_len: u32,
    ) -> Result<Assembled, AllocError>
        requires apart { AreApart 0 resolved.items size }
        requires fits { size ≤ 65536 }
        ensures { IfOk result (λ made. made ≡ assembled_parts resolved.items size relocs entry stg_len) }
    {
        let alloc = *resolved.allocator();
        let text = section_text(alloc, resolved.as_slice(), size)?;
        let spans = spans_of(alloc, resolved.as_slice(), size)?;
        cx_code::laws::canonical_is();
        Ok(Assembled {
            resolved,
            spans,
            image: Image {
                text: Bytes::from_vec(text),
                entry,
                relocs,
                stg_len,
            },
        })
    }

    /// The image: the text has each resolved line's bytes at its place, and zeros elsewhere. It takes no memory.
    #[tactic(auto, using(crate::proofs::TextLemmas::text_known))]
    pub fn image(&self) -> &Image
        ensures value { result.now ≡ self.now.image }
        ensures text { IsTextOf self.now.resolved (length self.now.image.text) self.now.image.text }
        ensures parts { IsAssembled self.now }
    {
        &self.image
    }

    /// The bytes of the text from an offset on, at most `len` of them; those past its end are left out. It takes no
    /// memory.
    pub fn object(&self, at: u32, len: u32) -> &[u8]
        ensures { result.now ≡ take len (drop at self.now.image.text) }
    {
        let text = self.image.text.as_slice();
        let (_, after) = text.split_at(text.len().min(at as usize));
        let (object, _) = after.split_at(after.len().min(len as usize));
        object
    }

    /// The spans of the text, one for each resolved line, in address order. It takes no memory.
    pub fn spans(&self) -> &[Span]
        ensures { result.now ≡ self.now.spans }
    {
        self.spans.as_slice()
    }

    /// The resolved lines, in address order. It takes no memory.
    pub fn resolved(&self) -> &[Line]
        ensures { result.now ≡ self.now.resolved }
    {
        self.resolved.as_slice()
    }

    /// The image, without the rest. It takes no memory.
    pub fn into_image(self) -> Image
        ensures { result ≡ self.image }
    {
        let Assembled { image, .. } = self;
        image
    }

    /// The disassembly of the text by the spans: the resolved lines.
    ///
    /// An error comes only where an allocation failed.
    pub fn disassembly(&self, alloc: Global) -> Result<Vec<Line>, AllocError>
        ensures { IfOk result (λ found. found.items ≡ self.now.resolved) }
    {
        disassemble(alloc, self.image.text.as_slice(), self.spans.as_slice())
    }
}
