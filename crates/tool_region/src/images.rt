//! Blocks, and the images of hexadecimal digits.

use cx_code::{Bytes, Image, Offsets};
use cx_script_io::split_line;
use std::alloc::{AllocError, Global};

/// The most bytes of an image's line.
const MOST_IN_LINE: usize = 2_048;

/// The lines of a block, and those after its last, `/*`.
pub fn split_block(lines: &[u8]) -> (&[u8], &[u8]) {
    let mut len = 0usize;
    let mut rest = lines;
    for _ in 0..lines.len() {
        let Some((line, after)) = split_line(rest) else {
            break;
        };
        rest = after;
        if line == b"/*".as_slice() {
            break;
        }
        len = len.saturating_add(line.len()).saturating_add(1);
    }
    (lines.get(..len).unwrap_or(b""), rest)
}

/// Adds the bytes that a line's digits spell; false where they spell none.
fn push_line(text: &mut Vec<u8>, line: &[u8]) -> Result<bool, AllocError> {
    let mut buffer = [0; MOST_IN_LINE];
    let Some(bytes) = buffer.get_mut(..line.len() / 2) else {
        return Ok(false);
    };
    if hex::decode_to_slice(line, bytes).is_err() {
        return Ok(false);
    }
    if text.extend_from_slice(bytes).is_err() {
        text.extend_from_slice(bytes)?;
    }
    Ok(true)
}

/// The image whose text some lines spell; None where they spell none.
pub fn image_of(alloc: Global, block: &[u8], stg_len: u32) -> Result<Option<Image>, AllocError> {
    let mut text = Vec::new(alloc);
    for line in block.split(|byte| *byte == b'\n') {
        if !push_line(&mut text, line)? {
            return Ok(None);
        }
    }
    Ok(Some(Image {
        text: Bytes::from_vec(text),
        entry: 0,
        relocs: Offsets::from_vec(Vec::new(alloc)),
        stg_len,
    }))
}
