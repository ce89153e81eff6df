//! From a source to its image, by calls of the library that are each given once more where they are answered Memory.

use cx_asm::{AsmFault, Assembly, assemble, disassembly};
use cx_code::{Image, Line, line_text};
use cx_script_actions::Wanted;
use cx_script_io::split_line;
use cx_source::{Source, SourceFault, SourceReader};
use cx_translate::{TransFault, translate};
use std::alloc::{AllocError, Global};
use std::io;

/// Feeds a piece.
fn feed(reader: &mut SourceReader, piece: &[u8]) -> Result<(), SourceFault> {
    match reader.feed(piece) {
        Err(SourceFault::Memory) => reader.feed(piece),
        answer => answer,
    }
}

/// The source that a text is, which is fed in pieces of seven bytes.
fn read_in_pieces(alloc: Global, text: &[u8]) -> Result<Source, SourceFault> {
    let mut reader = SourceReader::new(alloc);
    for piece in text.chunks(7) {
        feed(&mut reader, piece)?;
    }
    reader.finish()
}

fn read(alloc: Global, text: &[u8]) -> Result<Source, SourceFault> {
    match read_in_pieces(alloc, text) {
        Err(SourceFault::Memory) => read_in_pieces(alloc, text),
        answer => answer,
    }
}

fn translated(alloc: Global, source: &Source) -> Result<Source, TransFault> {
    match translate(alloc, source) {
        Err(TransFault::Memory) => translate(alloc, source),
        answer => answer,
    }
}

fn assembled(alloc: Global, source: &Source) -> Result<Assembly, AsmFault> {
    match assemble(alloc, source) {
        Err(AsmFault::Memory) => assemble(alloc, source),
        answer => answer,
    }
}

fn disassembled(alloc: Global, assembly: &Assembly) -> Result<Vec<Line>, AllocError> {
    match disassembly(alloc, assembly) {
        Ok(lines) => Ok(lines),
        Err(_) => disassembly(alloc, assembly),
    }
}

fn text_of(alloc: Global, line: &Line) -> Result<String, AllocError> {
    match line_text(alloc, line) {
        Ok(text) => Ok(text),
        Err(_) => line_text(alloc, line),
    }
}

fn print_listing(rt: &HostRuntime, assembly: &Assembly) -> io::Result<()> {
    for line in assembly.listing() {
        println!(rt; "{}", std::str::from_utf8(line.as_slice()).unwrap_or("?"))?;
    }
    Ok(())
}

// What a function owns is dropped at each of its ends: one that owns a source, or lines, has few.

fn print_line(rt: &HostRuntime, line: &Line) -> io::Result<()> {
    let text = text_of(rt.alloc(), line)?;
    rt.println(text.as_str())
}

fn print_lines(rt: &HostRuntime, lines: &[Line]) -> io::Result<()> {
    for line in lines {
        print_line(rt, line)?;
    }
    Ok(())
}

fn print_disassembly(rt: &HostRuntime, assembly: &Assembly) -> io::Result<()> {
    let lines = disassembled(rt.alloc(), assembly)?;
    print_lines(rt, lines.as_slice())
}

/// The assembly of a translated source; None where it is faulty, and its fault is printed.
fn assembly_of_translated(rt: &HostRuntime, source: &Source) -> io::Result<Option<Assembly>> {
    match assembled(rt.alloc(), source) {
        Ok(assembly) => Ok(Some(assembly)),
        Err(fault) => {
            println!(rt; "{fault}")?;
            Ok(None)
        }
    }
}

/// The assembly of a source; None where it is faulty, and its fault is printed.
fn assembly_of_source(rt: &HostRuntime, source: &Source) -> io::Result<Option<Assembly>> {
    match translated(rt.alloc(), source) {
        Ok(source) => assembly_of_translated(rt, &source),
        Err(fault) => {
            println!(rt; "{fault}")?;
            Ok(None)
        }
    }
}

/// The assembly of a source's text; None where the source is faulty, and its fault is printed.
fn assembly_of(rt: &HostRuntime, text: &[u8]) -> io::Result<Option<Assembly>> {
    match read(rt.alloc(), text) {
        Ok(source) => assembly_of_source(rt, &source),
        Err(fault) => {
            println!(rt; "{fault}")?;
            Ok(None)
        }
    }
}

fn print_wanted(rt: &HostRuntime, wanted: Wanted, assembly: &Assembly) -> io::Result<()> {
    if wanted.listing {
        print_listing(rt, assembly)?;
    }
    if wanted.disassembly {
        print_disassembly(rt, assembly)?;
    }
    Ok(())
}

/// The image of a source, after printing what is wanted of it; None where the source is faulty: then its fault is
/// printed.
pub fn program_of(rt: &HostRuntime, wanted: Wanted, text: &[u8]) -> io::Result<Option<Image>> {
    let Some(assembly) = assembly_of(rt, text)? else {
        return Ok(None);
    };
    print_wanted(rt, wanted, &assembly)?;
    Ok(Some(assembly.into_image()))
}
