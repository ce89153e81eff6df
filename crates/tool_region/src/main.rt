//! Turns hostile programs in a region, and looks after each event whether the region is what it has to be; or does
//! lists of events, and gives each that is answered Memory once more. The first line of its input says which:
//!
//! - `HOSTILE`: hostile programs (`hostile`);
//! - `LISTS`: lists (`lists`).
//!
//! After hostile programs a line `LISTS` begins lists, too, which go to the end of the input. The status is 1 where a
//! hostile program brings about what must not be, or an answer that must come doesn't; then no list is done. It is 1
//! too where the first line is another one, the last line has no line feed, or the input has more than 524,288 bytes.
//!
//! `checks/hostile-images` turns 10,000 hostile programs by it. `checks/refused-events` has it do lists with each
//! allocation refused in turn: what is printed must be as without a refusal. `checks/event-lists` runs lists of 5,000
//! events through it.
//!
//! In every module an error means that memory ran out, in lists also when a call was given once more, or that reading
//! or printing failed; but for `Stop`, which says what it is.
#![tactic(auto)]

mod acts;
mod alone;
mod answers;
mod calls;
mod code;
mod counts;
mod draws;
mod events;
mod hostile;
mod images;
mod lists;
mod modes;
mod pages;
mod runs;
mod seen;
mod setup;
mod sources;
mod stop;
mod texts;
mod trial;

use crate::hostile::turn_programs;
use crate::lists::{MOST, do_lists};
use cx_script_io::split_line;
use std::alloc::{AllocError, Global};
use std::io;
use std::io::Read;

/// Room for the input.
fn room(alloc: Global) -> Result<Vec<u8>, AllocError> {
    vec![in alloc; 0; MOST]
}

/// Reads all that a reader has, and answers how many bytes that is; None where there is more than the buffer takes.
fn read_all<R: Read>(reader: &mut R, buffer: &mut [u8]) -> io::Result<Option<usize>> {
    let mut len = 0usize;
    for _ in 0..MOST {
        let Some(free) = buffer.get_mut(len..) else {
            return Ok(None);
        };
        if free.is_empty() {
            return Ok(None);
        }
        let read = reader.read(free)?;
        if read == 0 {
            return Ok(Some(len));
        }
        len = len.saturating_add(read);
    }
    Ok(None)
}

/// The lines before a line `LISTS`, and those after it.
fn split_lists(lines: &[u8]) -> (&[u8], &[u8]) {
    let mut rest = lines;
    for _ in 0..lines.len() {
        let Some((line, after)) = split_line(rest) else {
            break;
        };
        if line == b"LISTS".as_slice() {
            let end = lines.len().saturating_sub(rest.len());
            return (lines.get(..end).unwrap_or(lines), after);
        }
        rest = after;
    }
    (lines, b"")
}

/// Turns hostile programs, and does the lists after them.
fn turn_and_do(rt: &HostRuntime, lines: &[u8]) -> io::Result<()> {
    let (programs, lists) = split_lists(lines);
    turn_programs(rt, programs)?;
    do_lists(rt, lists)
}

/// Does what the first line of the input says.
fn do_part(rt: &HostRuntime, heading: &[u8], lines: &[u8]) -> io::Result<()> {
    if heading == b"HOSTILE".as_slice() {
        turn_and_do(rt, lines)
    } else if heading == b"LISTS".as_slice() {
        do_lists(rt, lines)
    } else {
        Err(io::Error::other("the first line is neither HOSTILE nor LISTS"))
    }
}

/// Does what the input says.
fn do_input(rt: &HostRuntime, input: &[u8]) -> io::Result<()> {
    match split_line(input) {
        Some((heading, lines)) if input.last() == Some(&b'\n') => do_part(rt, heading, lines),
        _ => Err(io::Error::other("the last line has no line feed")),
    }
}

fn main(rt: HostRuntime) -> io::Result<()> {
    let mut buffer = match room(rt.alloc()) {
        Ok(buffer) => buffer,
        Err(_) => room(rt.alloc())?,
    };
    match read_all(&mut rt.reader(), buffer.as_mut_slice())? {
        Some(len) => do_input(&rt, buffer.as_slice().get(..len).unwrap_or(b"")),
        None => Err(io::Error::other("there is too much input")),
    }
}
