//! A source prepared for execution.

ghost use Rattle.std.specs.Prelude.{◌≡◌, ◌++◌, ◌∷◌, [], IfOk, OnOk, codes, flat_map, fold, map};
ghost use Rattle.cx_asm.specs.Assembly.{assembly_of};
ghost use Rattle.cx_code.specs.Text.{line_text};
ghost use Rattle.cx_source.specs.Reader.{reading_at_start, take_line};
ghost use Rattle.cx_translate.specs.Translation.{translation_of};
ghost use Rattle.cx_asm_build.specs.Prepared.{Prepares, by_assembly, by_translation, prepared_of, output_lines};

use crate::faults::PrepareFault;
use cx_asm::{Assembly, assemble};
use cx_code::{Bytes, Image, Line, line_text};
use cx_source::{Source, SourceFault, SourceReader, Text};
use cx_translate::translate;
use std::alloc::{AllocError, Global};

/// A program that a source was made into, and what is written of it.
#[derive(Drop)]
pub struct Prepared {
    /// What is written of it: the listing and then the disassembly, where they are asked for, each line ended by LF;
    /// empty where neither is.
    pub text: Bytes,
    /// Its image, which the loader takes.
    pub image: Image,
}

/// Puts a line and its end after a text.
fn push_line(text: &mut Vec<u8>, line: &[u8]) -> Result<(), AllocError>
    ensures { OnOk result (text.new.items ≡ text.old.items ++ line.now ++ codes "\n") }
{
    text.extend_from_slice(line)?;
    text.push(b'\n')?;
    Ok(())
}

/// Puts lines after a text.
fn push_lines(text: &mut Vec<u8>, lines: &[Text]) -> Result<(), AllocError>
    ensures { OnOk result (text.new.items ≡ text.old.items ++ flat_map (λ line. line ++ codes "\n") lines.now) }
{
    for line in lines {
        push_line(text, line.as_slice())?;
    }
    Ok(())
}

/// Puts the lines of a disassembly after a text.
fn push_disassembly(alloc: Global, text: &mut Vec<u8>, lines: &[Line]) -> Result<(), AllocError>
    ensures { let all = map line_text lines.now in
        OnOk result (text.new.items ≡ text.old.items ++ flat_map (λ line. line ++ codes "\n") all) }
{
    for line in lines {
        push_line(text, line_text(alloc, line)?.as_bytes())?;
    }
    Ok(())
}

/// What is written of an assembly.
#[tactic(auto, unfolding(crate::specs::Prepared::output_lines))]
fn written(
    alloc: Global,
    listing: bool,
    disassembly: bool,
    assembly: &Assembly,
) -> Result<Vec<u8>, AllocError>
    ensures { IfOk result (λ text. text.items ≡ output_lines listing disassembly assembly.now) }
{
    let mut text = Vec::new(alloc);
    if listing {
        push_lines(&mut text, assembly.listing())?;
    }
    if disassembly {
        let lines = cx_asm::disassembly(alloc, assembly)?;
        push_disassembly(alloc, &mut text, lines.as_slice())?;
    }
    Ok(text)
}

/// A translated source assembled.
fn by_assembly(
    alloc: Global,
    listing: bool,
    disassembly: bool,
    source: &Source,
) -> Result<Prepared, PrepareFault>
    ensures { Prepares (by_assembly listing disassembly (assembly_of source.now)) result }
{
    let assembly = match assemble(alloc, source) {
        Ok(assembly) => assembly,
        Err(fault) => return Err(PrepareFault::from(fault)),
    };
    let text = written(alloc, listing, disassembly, &assembly)?;
    Ok(Prepared {
        text: Bytes::from_vec(text),
        image: assembly.into_image(),
    })
}

/// A source translated and assembled.
fn by_translation(
    alloc: Global,
    listing: bool,
    disassembly: bool,
    source: Source,
) -> Result<Prepared, PrepareFault>
    ensures { Prepares (by_translation listing disassembly (translation_of source)) result }
{
    let translated = match translate(alloc, &source) {
        Ok(translated) => translated,
        Err(fault) => return Err(PrepareFault::from(fault)),
    };
    drop(source);
    by_assembly(alloc, listing, disassembly, &translated)
}

/// Feeds a line; a faulty one's fault is kept by the reader.
fn feed(reader: &mut SourceReader, line: &[u8]) -> Result<(), AllocError>
    ensures { OnOk result (reader.new ≡ take_line reader.old line.now) }
{
    match reader.feed_line(line) {
        Ok(()) => Ok(()),
        Err(SourceFault::BadCharacter(_)) => Ok(()),
        Err(SourceFault::BadName(_)) => Ok(()),
        Err(SourceFault::BadContinuation(_)) => Ok(()),
        Err(SourceFault::TooLong(_)) => Ok(()),
        Err(SourceFault::NoEnd(_)) => Ok(()),
        Err(SourceFault::Memory) => Err(AllocError),
    }
}

/// A reader that was fed these lines.
fn fed(alloc: Global, lines: &[Text]) -> Result<SourceReader, AllocError>
    ensures { IfOk result (λ reader. reader ≡ fold take_line reading_at_start lines.now) }
{
    let mut reader = SourceReader::new(alloc);
    for line in lines {
        feed(&mut reader, line.as_slice())?;
    }
    Ok(reader)
}

/// The program of a source: of its lines, without their ends, read, translated and assembled; and what is written of
/// it, the listing and then the disassembly, where they are asked for.
///
/// The fault is that of the source's first faulty line; without one, that of its first faulty EXEC statement; without
/// one, the assembler's. Memory comes only where an allocation failed.
#[tactic(auto, unfolding(crate::specs::Prepared::prepared_of))]
pub fn prepare(
    alloc: Global,
    lines: &[Text],
    listing: bool,
    disassembly: bool,
) -> Result<Prepared, PrepareFault>
    ensures { Prepares (prepared_of listing disassembly lines.now) result }
{
    cx_source::laws::lines_one_by_one_are_the_source();
    let reader = fed(alloc, lines)?;
    match reader.finish() {
        Ok(source) => by_translation(alloc, listing, disassembly, source),
        Err(fault) => Err(PrepareFault::from(fault)),
    }
}
