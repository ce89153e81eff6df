//! The part `MEASURE pass1` times the first pass: a line with a number is followed by a source, which is read once, at
//! the part's end, and placed that many times. Printed is how many statements have a place, or why none has.
//! `bench/places` makes sources and measures it.

use cx_asm_pass1::place_all;
use cx_source::{Source, read_source};
use std::alloc::{AllocError, Global};
use std::io;

/// Places a source, and prints what came of it where it's the last time.
fn place(rt: &HostRuntime, source: &Source, is_last: bool) -> io::Result<()> {
    let placed = place_all(rt.alloc(), source);
    if !is_last {
        return Ok(());
    }
    match placed {
        Ok(Ok(places)) => println!(rt; "{} statements", places.statements.as_slice().len()),
        Ok(Err(first)) => println!(rt; "{} {}", first.line, first.kind.name()),
        Err(AllocError) => println!(rt; "out of memory"),
    }
}

/// Places a source so often.
fn place_often(rt: &HostRuntime, source: &Source, turns: u32) -> io::Result<()> {
    for turn in 0..turns {
        place(rt, source, turn + 1 == turns)?;
    }
    Ok(())
}

/// Reads a text as a source, and places it so often.
fn place_text(rt: &HostRuntime, text: &[u8], turns: u32) -> io::Result<()> {
    match read_source(rt.alloc(), text) {
        Ok(source) => place_often(rt, &source, turns),
        Err(_) => println!(rt; "no source"),
    }
}

/// How often a source is placed, which the first line says, and the source's text so far.
#[derive(Drop)]
pub struct Pass1Part {
    turns: Option<u32>,
    text: String,
}

impl Pass1Part {
    /// The part before its first line.
    pub fn new(alloc: Global) -> Self {
        Pass1Part {
            turns: None,
            text: String::new(alloc),
        }
    }

    /// Takes the number, or a line of the source.
    pub fn line(&mut self, line: &str) -> Result<(), AllocError> {
        if self.turns.is_none() {
            self.turns = Some(line.trim().parse().unwrap_or(1));
            return Ok(());
        }
        self.text.push_str(line)?;
        self.text.push_str("\n")
    }

    /// Places the source so often, and prints how many statements have a place, or why none has.
    pub fn end(&self, rt: &HostRuntime) -> io::Result<()> {
        place_text(rt, self.text.as_str().as_bytes(), self.turns.unwrap_or(1))
    }
}
