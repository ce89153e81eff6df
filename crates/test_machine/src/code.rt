//! The table of instructions, their bytes and their lines, by rows worked by hand.
use cx_code::{
    Bytes, Fields, Format, Inst, Offsets, Op, Span, SpanKind, decode, disassemble, encode,
    instruction_length, line_text,
};
use std::alloc::{AllocError, Global};
use std::test::Fail;

/// The text of the line that one span of a text gives; empty where it isn't one line.
fn line_of(alloc: Global, text: &[u8], span: Span) -> Result<String, AllocError> {
    let lines = disassemble(alloc, text, &[span])?;
    match lines.first() {
        Some(line) if lines.len() == 1 => line_text(alloc, line),
        _ => Ok(String::new(alloc)),
    }
}

fn is_line(alloc: Global, text: &[u8], span: Span, line: &str) -> Result<bool, AllocError> {
    Ok(line_of(alloc, text, span)?.as_str() == line)
}

fn span(start: u32, len: u32, kind: SpanKind) -> Span {
    Span { start, len, kind }
}

/// Instructions with their lengths and their lines.
#[rattlefmt::skip]
const INSTRUCTIONS: &[(&[u8], u32, &str)] = &[
    (&[0x1a, 0x12], 2, "AR 1,2"),
    (&[0x07, 0xfe], 2, "BCR 15,14"),
    (&[0x47, 0xf0, 0x30, 0x00], 4, "BC 15,0(0,3)"),
    (&[0x58, 0x10, 0xf0, 0x18], 4, "L 1,24(0,15)"),
    (&[0x98, 0xe1, 0xd0, 0x08], 4, "LM 14,1,8(13)"),
    (&[0x88, 0x10, 0x00, 0x04], 4, "SRL 1,4(0)"),
    (&[0x89, 0x10, 0x00, 0x04], 4, "SLL 1,4(0)"),
    (&[0x89, 0x11, 0x00, 0x04], 4, "DC X'89110004'"),
    (&[0x96, 0x80, 0xd0, 0x00], 4, "OI 0(13),128"),
    (&[0xd2, 0x01, 0xd0, 0x08, 0xf0, 0x1c], 6, "MVC 8(2,13),28(15)"),
    (&[0xf2, 0x24, 0x50, 0x08, 0x50, 0x00], 6, "PACK 8(3,5),0(5,5)"),
    (&[0xbf, 0x17, 0x50, 0x00], 4, "ICM 1,7,0(5)"),
    (&[0x05, 0xef, 0x00], 3, "DC X'05EF00'"),
];

#[test]
fn lines_of_instructions(rt: HostRuntime) -> Result<(), Fail> {
    for &(text, len, line) in INSTRUCTIONS {
        let code = span(0, len, SpanKind::Code);
        assert!(rt; is_line(rt.alloc(), text, code, line)?, "{line}");
    }
    Ok(())
}

/// Spans of a text, by start, length and kind, with their lines.
#[rattlefmt::skip]
const SPANS: &[(u32, u32, SpanKind, &str)] = &[
    (4, 2, SpanKind::Data, "DC X'C1C2'"),
    (6, 4, SpanKind::Code, "AR 1,2"),
    (0, 2, SpanKind::Code, "DC X'5810'"),
    (6, 9, SpanKind::Data, "DC X'1A12'"),
    (8, 4, SpanKind::Code, "DC X''"),
    (4_000_000_000, 4_000_000_000, SpanKind::Data, "DC X''"),
    (6, 80, SpanKind::Space, "DS XL80"),
];

/// The text of these spans.
const SPANNED: &[u8] = &[0x58, 0x10, 0xf0, 0x18, 0xc1, 0xc2, 0x1a, 0x12];

#[test]
fn lines_of_spans(rt: HostRuntime) -> Result<(), Fail> {
    for &(start, len, kind, line) in SPANS {
        assert!(rt;
            is_line(rt.alloc(), SPANNED, span(start, len, kind), line)?,
            "{line}"
        );
    }
    Ok(())
}

/// The offset of the second of two spans' lines; None unless they are two.
fn second_offset(alloc: Global, spans: [Span; 2]) -> Result<Option<u32>, AllocError> {
    let lines = disassemble(alloc, &[0x1a, 0x12, 0xc1, 0xc2], &spans)?;
    match lines.as_slice() {
        [_, line] => Ok(Some(line.at)),
        _ => Ok(None),
    }
}

#[test]
fn each_span_has_a_line(rt: HostRuntime) -> Result<(), Fail> {
    let both = [span(0, 2, SpanKind::Code), span(2, 2, SpanKind::Data)];
    assert!(rt; second_offset(rt.alloc(), both)? == Some(2));
    Ok(())
}

/// The length of the line of a text of `size` zero bytes.
fn long_line(alloc: Global, size: usize) -> Result<usize, AllocError> {
    let text = vec![in alloc; 0; size]?;
    let line = line_of(alloc, text.as_slice(), span(0, 65_536, SpanKind::Data))?;
    Ok(line.len())
}

#[test]
fn the_longest_text_has_a_line(rt: HostRuntime) -> Result<(), Fail> {
    assert!(rt; long_line(rt.alloc(), 65_536)? == 2 * 65_536 + 6);
    Ok(())
}

/// The number of lines of a text of `size` zero bytes, one line per byte.
fn line_count(alloc: Global, size: u32) -> Result<usize, AllocError> {
    let text = vec![in alloc; 0; size as usize]?;
    let mut spans = Vec::new(alloc);
    for k in 0..size {
        spans.push(span(k, 1, SpanKind::Data))?;
    }
    Ok(disassemble(alloc, text.as_slice(), spans.as_slice())?.len())
}

#[test]
fn each_byte_of_the_longest_text_may_have_a_line(rt: HostRuntime) -> Result<(), Fail> {
    assert!(rt; line_count(rt.alloc(), 65_536)? == 65_536);
    Ok(())
}

/// SLL 1,4(0).
const SHIFT: Fields = Fields::Rs {
    r1: 1,
    r3: 0,
    b2: 0,
    d2: 4,
};

fn rs(r1: u8, r3: u8, d2: u16) -> Fields {
    Fields::Rs { r1, r3, b2: 0, d2 }
}

/// The row, the fields and the length of the instruction that bytes begin with.
fn decoded(bytes: &[u8]) -> Option<(Op, Fields, usize)> {
    let (inst, length) = decode(bytes)?;
    Some((inst.op(), inst.fields(), length))
}

/// Whether an instruction has these bytes.
fn spells(inst: &Inst, bytes: &[u8]) -> bool {
    encode(inst).as_slice() == bytes
}

/// Whether the fields make an instruction with these bytes.
fn is_encoded(op: Op, fields: Fields, bytes: &[u8]) -> bool {
    match Inst::new(op, fields) {
        Some(inst) => spells(&inst, bytes),
        None => false,
    }
}

#[test]
fn instructions_and_their_bytes(rt: HostRuntime) {
    let bytes = [0x89, 0x11, 0x00, 0x04, 0xff];
    assert!(rt; decoded(&bytes) == Some((Op::Sll, SHIFT, 4)));
    assert!(rt; is_encoded(Op::Sll, SHIFT, &[0x89, 0x10, 0x00, 0x04]));
    assert!(rt; decoded(&[0x00, 0x00]).is_none());
    assert!(rt; decoded(&[0x89, 0x11, 0x00]).is_none());
    assert!(rt; SHIFT.format() == Format::Rs);
}

#[test]
fn fields_out_of_range_make_no_instruction(rt: HostRuntime) {
    assert!(rt; Inst::new(Op::Sll, rs(1, 1, 4)).is_none());
    assert!(rt; Inst::new(Op::Lm, rs(1, 0, 4096)).is_none());
    assert!(rt; Inst::new(Op::Ar, SHIFT).is_none());
}

/// Whether a row of the table is this.
fn is_row(op: Op, code: u8, name: &str, format: Format) -> bool {
    op.code() == code
        && op.name() == name
        && op.format() == format
        && Op::from_code(code) == Some(op)
        && Op::from_name(name) == Some(op)
        && Op::from_name_bytes(name.as_bytes()) == Some(op)
}

#[test]
fn rows_of_the_table(rt: HostRuntime) {
    assert!(rt; is_row(Op::Trt, 0xdd, "TRT", Format::Ss));
    assert!(rt; Op::Trt.length() == 6 && !Op::Trt.is_shift());
    assert!(rt; Op::from_code(0x00).is_none());
    assert!(rt; Op::from_name("NOP").is_none());
    assert!(rt; Op::from_name_bytes(b"trt").is_none());
    assert!(rt; Format::Ss2.length() == 6);
    for (code, length) in [(0x05, 2), (0x47, 4), (0xbf, 4), (0xd2, 6), (0xff, 6)] {
        assert!(rt; instruction_length(code) == length, "{code}");
    }
}

fn gives_text_back(alloc: Global, text: &[u8]) -> Result<bool, AllocError> {
    let bytes = Bytes::from_vec(text.to_vec(alloc)?);
    let is_seen = bytes.as_slice() == text;
    Ok(is_seen && bytes.into_vec().as_slice() == text)
}

fn gives_offsets_back(alloc: Global, relocs: &[u32]) -> Result<bool, AllocError> {
    let offsets = Offsets::from_vec(relocs.to_vec(alloc)?);
    let are_seen = offsets.as_slice() == relocs;
    Ok(are_seen && offsets.into_vec().as_slice() == relocs)
}

#[test]
fn lists_of_an_image_give_back_what_they_hold(rt: HostRuntime) -> Result<(), Fail> {
    assert!(rt; gives_text_back(rt.alloc(), &[5, 239])?);
    assert!(rt; gives_offsets_back(rt.alloc(), &[70_000])?);
    Ok(())
}
