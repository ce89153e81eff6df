//! A section written out by hand: four instructions and three literals, with a gap before these.
use crate::image_sections::{Beside, Content, LEAST, section};
use cx_asm_image::push_words;
use cx_code::{Image, Line, SpanKind, line_text};
use std::alloc::{AllocError, Global};
use std::process::Abort;
use std::test::Fail;

const LINES: [(u32, Content); 7] = [
    (0, Content::Code(b"\xD2\x01\xD0\x08\xF0\x1C")),
    (6, Content::Code(b"\x58\x10\xF0\x18")),
    (10, Content::Code(b"\x48\x20\xF0\x1E")),
    (14, Content::Code(b"\x5A\x10\xF0\x18")),
    (24, Content::Data(b"\x00\x00\x00\x01")),
    (28, Content::Data(b"\xC1\xC2")),
    (30, Content::Data(b"\x00\x02")),
];

const TEXT: &[u8] =
    b"\xD2\x01\xD0\x08\xF0\x1C\x58\x10\xF0\x18\x48\x20\xF0\x1E\x5A\x10\xF0\x18\x00\x00\x00\x00\x00\x00\x00\x00\x00\x01\xC1\xC2\x00\x02";

const DISASSEMBLY: &[u8] = b"0 MVC 8(2,13),28(15)
6 L 1,24(0,15)
10 LH 2,30(0,15)
14 A 1,24(0,15)
24 DC X'00000001'
28 DC X'C1C2'
30 DC X'0002'
";

/// A line with its offset.
fn line_written(alloc: Global, line: &Line) -> Result<String, AllocError> {
    let shown = line_text(alloc, line)?;
    let at = line.at;
    Ok(format!(in alloc; "{at} {shown}\n")?)
}

/// Lines with their offsets, one per line.
fn written(alloc: Global, lines: &[Line]) -> Result<String, AllocError> {
    let mut text = String::new(alloc);
    for line in lines {
        let shown = line_written(alloc, line)?;
        text.push_str(shown.as_str())?;
    }
    Ok(text)
}

#[test]
fn text_and_spans_give_the_lines(rt: HostRuntime) {
    let alloc = rt.alloc();
    let Ok(Some(made)) = section(alloc, &LINES, 32, LEAST) else {
        panic!(rt; "refused");
    };
    assert!(rt; made.image().text.as_slice() == TEXT);
    let spans = made.spans();
    assert!(rt; spans.len() == 7);
    assert!(rt; spans[3].start == 14 && spans[3].len == 4 && spans[3].kind == SpanKind::Code);
    assert!(rt; spans[4].start == 24 && spans[4].len == 4 && spans[4].kind == SpanKind::Data);
    let Ok(found) = made.disassembly(alloc) else {
        panic!(rt; "refused");
    };
    let (Ok(one), Ok(other)) = (
        written(alloc, found.as_slice()),
        written(alloc, made.resolved()),
    ) else {
        panic!(rt; "refused");
    };
    assert!(rt; one.as_bytes() == DISASSEMBLY);
    assert!(rt; other.as_bytes() == DISASSEMBLY);
}

/// The offsets 24 and 28.
fn words(alloc: Global) -> Result<Vec<u32>, AllocError> {
    let mut relocs = Vec::new(alloc);
    push_words(&mut relocs, 24, 2)?;
    Ok(relocs)
}

/// Whether an image has 40 bytes, these relocated words, the entry 6 and 100 bytes of working storage.
fn is_given(image: &Image) -> bool {
    image.text.as_slice().len() == 40
        && image.relocs.as_slice() == [24, 28].as_slice()
        && image.entry == 6
        && image.stg_len == 100
}

/// The image of these lines, and of more than they need. An error means out of memory.
fn given(alloc: Global) -> Result<Option<Image>, AllocError> {
    let relocs = words(alloc)?;
    let beside = Beside {
        relocs: relocs.as_slice(),
        entry: 6,
        stg_len: 100,
    };
    match section(alloc, &LINES, 40, beside)? {
        Some(made) => Ok(Some(made.into_image())),
        None => Ok(None),
    }
}

#[test]
fn the_image_has_what_was_given(rt: HostRuntime) {
    match given(rt.alloc()) {
        Ok(Some(image)) => assert!(rt; is_given(&image)),
        _ => assert!(rt; false),
    }
}

/// The calls over these lines are answered as they should be. An error means out of memory.
fn expect_answers<R: Abort + AllocGlobal>(rt: &R) -> Result<(), AllocError> {
    let alloc = rt.alloc();
    let beside = Beside {
        relocs: &[24],
        ..LEAST
    };
    let Some(made) = section(alloc, &LINES, 32, beside)? else {
        panic!(rt; "refused");
    };
    assert!(rt; made.image().text.as_slice() == TEXT);
    assert!(rt; made.spans().len() == 7);
    let lines = made.disassembly(alloc)?;
    assert!(rt; lines.len() == 7);
    Ok(())
}

/// No other answer takes the place of a refusal; `checks/refuse-tests` refuses each allocation in turn.
#[test]
fn a_refused_allocation_is_no_other_answer(rt: HostRuntime) {
    let _answer = expect_answers(&rt);
}

#[test]
fn ample_memory_does_not_run_out(rt: HostRuntime) -> Result<(), Fail> {
    expect_answers(&rt)?;
    Ok(())
}
