//! The part of spellings: a line has the bytes of an instruction as hexadecimal digits, and after a blank its mnemonic
//! and operands, or `- -` where the bytes are no instruction's canonical spelling. The bytes of a line that differs are
//! printed.

use crate::spelling_vector::described;
use std::alloc::{AllocError, Global};
use std::io;

/// How many lines there were, and how many of them differ.
#[derive(Drop)]
pub struct SpellingPart {
    done: u64,
    differ: u64,
}

/// Whether the library says the same of these bytes, which are given as hexadecimal digits.
fn agrees(alloc: Global, digits: &str, said: &str) -> Result<bool, AllocError> {
    let mut buffer = [0; 6];
    let Some(bytes) = buffer.get_mut(..digits.len() / 2) else {
        return Ok(false);
    };
    if hex::decode_to_slice(digits, bytes).is_err() {
        return Ok(false);
    }
    Ok(described(alloc, bytes)?.as_str() == said)
}

impl SpellingPart {
    /// The part before its first line.
    pub fn new() -> Self {
        SpellingPart { done: 0, differ: 0 }
    }

    /// Judges a line and counts it; its bytes are printed where it differs.
    pub fn line(&mut self, rt: &HostRuntime, line: &str) -> io::Result<()> {
        let (digits, said) = line.split_once(' ').unwrap_or((line, ""));
        self.done = self.done.saturating_add(1);
        if agrees(rt.alloc(), digits, said)? {
            return Ok(());
        }
        self.differ = self.differ.saturating_add(1);
        rt.println(digits)
    }

    /// Prints how many lines there were, and how many of them differ.
    pub fn print(&self, rt: &HostRuntime) -> io::Result<()> {
        println!(rt; "{} done, {} differ", self.done, self.differ)
    }
}
