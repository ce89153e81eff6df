//! Which characters of an operand lie outside apostrophes, and cutting an operand there.

ghost use Rattle.std.specs.Prelude.{◌≡◌, ◌≤◌, ◌<◌, ◌+◌, ◌^◌, IfOk, length, map};
ghost use Rattle.cx_source.specs.Marks.{at_start, first_mark, is_length_attribute, is_mark, lies_outside, outside_apostrophes, parts, scan_after, within_after};

use crate::lines::{BLANK, begins_with_letter, is_symbol_name_character};
use std::alloc::{AllocError, Global};

/// An apostrophe.
const APOSTROPHE: u8 = b'\'';

/// The state of a walk along an operand.
#[derive(Clone, Copy)]
pub struct Scan {
    /// Whether the next character is in a text.
    pub within: bool,
    /// How many parentheses are open.
    pub depth: usize,
    /// The character before the last.
    pub before: u8,
    /// The last character passed.
    pub last: u8,
}

/// Where an operand may be cut. Only characters outside apostrophes count.
#[derive(Clone, Copy, PartialEq, Eq)]
pub enum Delimiter {
    /// At each comma that is in no parentheses.
    TopComma,
    /// At each blank, also in parentheses.
    Blank,
    /// At each parenthesis.
    Parenthesis,
    /// At each closing parenthesis that none in the text opens: parentheses close in pairs.
    Closing,
}

impl Delimiter {
    /// Whether a character after `depth` open parentheses is such a mark.
    fn is_at(self, depth: usize, c: u8) -> bool
        ensures { result ≡ is_mark self depth c }
    {
        match self {
            Delimiter::TopComma => c == b',' && depth == 0,
            Delimiter::Blank => c == BLANK,
            Delimiter::Parenthesis => c == b'(' || c == b')',
            Delimiter::Closing => c == b')' && depth == 0,
        }
    }
}

/// Whether an apostrophe is that of a length attribute, so that it opens no text: it is between
/// an L that begins a term and a letter.
#[tactic(auto, unfolding(crate::specs::Marks::is_length_attribute))]
fn is_length_attribute(before: u8, last: u8, after: &[u8]) -> bool
    ensures { result ≡ is_length_attribute before last after.now }
{
    last == b'L' && !is_symbol_name_character(before) && begins_with_letter(after)
}

impl Scan {
    /// Before an operand's first character.
    fn at_start() -> Scan
        ensures { result ≡ at_start }
    {
        Scan {
            within: false,
            depth: 0,
            before: BLANK,
            last: BLANK,
        }
    }

    /// Whether what follows the next character is in a text.
    #[tactic(auto, unfolding(crate::specs::Marks::within_after))]
    fn within_after(&self, c: u8, after: &[u8]) -> bool
        ensures { result ≡ within_after self.now c after.now }
    {
        if c == APOSTROPHE {
            !self.within && !is_length_attribute(self.before, self.last, after)
        } else {
            self.within
        }
    }

    /// Passes over the next character, with what follows it: whether it lies outside apostrophes.
    #[tactic(auto, unfolding(crate::specs::Marks::scan_depth_after))]
    fn pass(&mut self, c: u8, after: &[u8]) -> bool
        requires { self.old.depth + 1 < 2 ^ 64 }
        ensures outside { result ≡ lies_outside self.old c after.now }
        ensures passed { self.new ≡ scan_after self.old c after.now }
        ensures depth { self.new.depth ≤ self.old.depth + 1 }
    {
        let within = self.within_after(c, after);
        let outside = !self.within && !within;
        let depth = match c {
            b'(' if outside => self.depth + 1,
            b')' if outside => self.depth.saturating_sub(1),
            _ => self.depth,
        };
        *self = Scan {
            within,
            depth,
            before: self.last,
            last: c,
        };
        outside
    }
}

/// For each character of an operand whether it lies outside apostrophes: neither in a text nor one of the apostrophes
/// round a text. The apostrophe of `L'` before a letter (`@ # $` are letters), where L begins a term, lies outside
/// (GC33-4010, "Terms").
///
/// An error comes only where an allocation failed.
pub fn outside(alloc: Global, text: &[u8]) -> Result<Vec<bool>, AllocError>
    ensures { IfOk result (λ found. found.items ≡ outside_apostrophes text.now) }
{
    let mut found = Vec::new(alloc);
    let mut scan = Scan::at_start();
    for (i, c) in text.iter().enumerate() {
        let (_, after) = text.split_at(i + 1);
        found.push(scan.pass(*c, after))?;
    }
    Ok(found)
}

/// The place of the first mark outside apostrophes, from 0; the length where there is none.
/// It takes no memory.
pub fn first_mark(text: &[u8], mark: Delimiter) -> usize
    ensures place { result ≡ first_mark mark text.now }
    ensures bound { result ≤ length text.now }
{
    let mut scan = Scan::at_start();
    for (i, c) in text.iter().enumerate() {
        let at_mark = mark.is_at(scan.depth, *c);
        let (_, after) = text.split_at(i + 1);
        if scan.pass(*c, after) && at_mark {
            return i;
        }
    }
    text.len()
}

/// The parts between the marks outside apostrophes, one more than there are marks; some may be empty.
///
/// An error comes only where an allocation failed.
pub fn cut(alloc: Global, text: &[u8], mark: Delimiter) -> Result<Vec<&[u8]>, AllocError>
    ensures { IfOk result (λ found. map (λ part. part.now) found.items ≡ parts mark text.now) }
{
    let mut found = Vec::new(alloc);
    let mut scan = Scan::at_start();
    let mut start = 0;
    for (i, c) in text.iter().enumerate() {
        let at_mark = mark.is_at(scan.depth, *c);
        let (_, after) = text.split_at(i + 1);
        if scan.pass(*c, after) && at_mark {
            found.push(&text[start..i])?;
            start = i + 1;
        }
    }
    found.push(&text[start..])?;
    Ok(found)
}
