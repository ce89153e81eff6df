//! Sections of lines.
use cx_asm_image::{Assembled, LARGEST_TEXT, ResolvedLines, working_storage};
use cx_code::{Bytes, Inst, Line, LineContent, Offsets, decode};
use std::alloc::{AllocError, Global};
use std::test::Fail;

/// What is at a place, as plain bytes: an instruction, data, or a number of bytes without content.
#[derive(Clone, Copy)]
pub enum Content {
    Code(&'static [u8]),
    Data(&'static [u8]),
    Space(u32),
}

/// The instruction that bytes are.
fn inst_of(bytes: &[u8]) -> Option<Inst> {
    let (inst, _) = decode(bytes)?;
    Some(inst)
}

/// Bytes as data.
fn data_of(alloc: Global, bytes: &[u8]) -> Result<LineContent, AllocError> {
    Ok(LineContent::Data(Bytes::from_vec(bytes.to_vec(alloc)?)))
}

/// The instruction that bytes are; these bytes as data where they are none.
fn code_of(alloc: Global, bytes: &[u8]) -> Result<LineContent, AllocError> {
    match inst_of(bytes) {
        Some(inst) => Ok(LineContent::Code(inst)),
        None => data_of(alloc, bytes),
    }
}

fn what(alloc: Global, content: Content) -> Result<LineContent, AllocError> {
    match content {
        Content::Code(bytes) => code_of(alloc, bytes),
        Content::Data(bytes) => data_of(alloc, bytes),
        Content::Space(count) => Ok(LineContent::Space(count)),
    }
}

/// What a section's image has beside its text: offsets of relocated words, the entry's offset, and the length of
/// working storage in bytes.
#[derive(Clone, Copy)]
pub struct Beside<'a> {
    pub relocs: &'a [u32],
    pub entry: u32,
    pub stg_len: u32,
}

/// No relocated word, the entry at the start, and the least working storage.
pub const LEAST: Beside<'static> = Beside {
    relocs: &[],
    entry: 0,
    stg_len: 80,
};

/// The section of these lines, and of a size, in bytes; None where the lines overlap, or the section isn't as long. An
/// error means out of memory.
pub fn section(
    alloc: Global,
    contents: &[(u32, Content)],
    size: u32,
    beside: Beside<'_>,
) -> Result<Option<Assembled>, AllocError> {
    let mut lines = ResolvedLines::new(alloc);
    for (at, content) in contents {
        let line = Line {
            at: *at,
            what: what(alloc, *content)?,
        };
        if !lines.has_place_for(&line) {
            return Ok(None);
        }
        lines.push(line)?;
    }
    if lines.end() > size || size > LARGEST_TEXT {
        return Ok(None);
    }
    let Beside {
        relocs,
        entry,
        stg_len,
    } = beside;
    let relocs = Offsets::from_vec(relocs.to_vec(alloc)?);
    let made = Assembled::new(lines.into_vec(), size, relocs, entry, stg_len)?;
    Ok(Some(made))
}

/// The section of these lines with the least image, if it is made.
fn made(alloc: Global, contents: &[(u32, Content)], size: u32) -> Option<Assembled> {
    match section(alloc, contents, size, LEAST) {
        Ok(made) => made,
        Err(_) => None,
    }
}

/// Whether a section has this text from an offset on, where so many bytes are asked for.
fn has_object(made: &Assembled, at: u32, len: u32, text: &[u8]) -> bool {
    made.object(at, len) == text
}

/// Whether a section's text is of the greatest length, with these bytes at its front and its end.
fn is_largest(made: &Assembled) -> bool {
    made.image().text.as_slice().len() == 65_536
        && has_object(made, 65_533, 8, b"\x00\x00\xFF")
        && has_object(made, 0, 3, b"\x00\x00\x00")
}

/// Space before the last byte of the largest text.
const WITHIN: [(u32, Content); 2] = [(0, Content::Space(3)), (65_535, Content::Data(b"\xFF"))];

/// A byte past the largest text.
const BEYOND: [(u32, Content); 2] = [
    (0, Content::Space(65_536)),
    (65_536, Content::Data(b"\xFF")),
];

/// A byte over space.
const OVER: [(u32, Content); 2] = [(4, Content::Data(b"\xFF")), (4, Content::Space(1))];

/// Whether lines that are no section are refused, and not for want of memory.
fn is_none(alloc: Global, contents: &[(u32, Content)]) -> bool {
    match section(alloc, contents, 65_536, LEAST) {
        Ok(made) => made.is_none(),
        Err(_) => false,
    }
}

#[test]
fn the_largest_text_is_made(rt: HostRuntime) {
    match made(rt.alloc(), &WITHIN, 65_536) {
        Some(made) => assert!(rt; is_largest(&made)),
        None => assert!(rt; false),
    }
    assert!(rt; is_none(rt.alloc(), &BEYOND));
    assert!(rt; is_none(rt.alloc(), &OVER));
}

#[test]
fn working_storage_is_from_80_to_65_521(rt: HostRuntime) {
    let lengths: [(u128, u32); 8] = [
        (0, 80),
        (79, 80),
        (80, 80),
        (81, 81),
        (65_520, 65_520),
        (65_521, 65_521),
        (65_522, 65_521),
        (1 << 100, 65_521),
    ];
    for (length, stg_len) in lengths {
        assert!(rt; working_storage(length) == stg_len);
    }
}
