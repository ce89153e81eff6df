//! Reports: what a look has to say, a line after the other.
ghost use Rattle.std.specs.Prelude.{◌≡◌, ◌↔◌, ◌∷◌, ◌++◌, [], IfOk, IsTrue, OnOk, map};
ghost use Rattle.std.specs.List.{filter};
ghost use Rattle.cx_look_lines.specs.Words.{is_in_line, joined_line, look_line, marked, or_none};
ghost use Rattle.cx_look_lines.specs.Parts.Words.{marked_line};

use crate::lines::push_words;
use cx_base::{List, are_same_items};
use std::alloc::{AllocError, Global};
use std::marker::Model;

/// What a look has to say, a line after the other.
#[derive(Drop)]
pub struct Report {
    alloc: Global,
    lines: Vec<List<u8>>,
}

impl Model for Report {
    ghost use Rattle.std.specs.Prelude.{List as Elements, ℕ};

    ghost Value = { Elements (Elements ℕ) };

    ghost view = { λ report. report.lines.items };
}

/// Words with a blank between one and the next.
fn joined_line(alloc: Global, words: &[&[u8]]) -> Result<Vec<u8>, AllocError>
    ensures { IfOk result (λ line. line.items ≡ joined_line (map (λ word. word.now) words.now)) }
{
    let Some((first, more)) = words.split_first() else {
        return Ok(Vec::new(alloc));
    };
    let mut line = first.to_vec(alloc)?;
    push_words(&mut line, more)?;
    Ok(line)
}

/// Adds the characters of a line, but no LF.
fn push_in_line(text: &mut Vec<u8>, line: &[u8]) -> Result<(), AllocError>
    ensures { OnOk result (text.new.items ≡ text.old.items ++ filter is_in_line line.now) }
{
    for c in line {
        if *c != b'\n' {
            text.push(*c)?;
        }
    }
    Ok(())
}

/// Adds a line as it is written.
fn push_marked(text: &mut Vec<u8>, line: &[u8]) -> Result<(), AllocError>
    ensures { OnOk result (text.new.items ≡ text.old.items ++ marked_line line.now) }
{
    text.extend_from_slice(b"> ")?;
    push_in_line(text, line)?;
    text.push(b'\n')?;
    Ok(())
}

/// Adds lines as they are written.
#[tactic(auto, unfolding(crate::specs::Words::marked))]
fn push_all_marked(text: &mut Vec<u8>, lines: &[List<u8>]) -> Result<(), AllocError>
    ensures { OnOk result (text.new.items ≡ text.old.items ++ marked lines.now) }
{
    for line in lines {
        push_marked(text, line.as_slice())?;
    }
    Ok(())
}

/// Adds copies of lines.
fn push_copies(
    alloc: Global,
    lines: &mut Vec<List<u8>>,
    more: &[List<u8>],
) -> Result<(), AllocError>
    ensures { OnOk result (lines.new.items ≡ lines.old.items ++ more.now) }
{
    for line in more {
        lines.push(List::from_slice(alloc, line.as_slice())?)?;
    }
    Ok(())
}

impl Report {
    /// A report without lines. It takes no memory.
    pub fn new(alloc: Global) -> Report
        ensures { result ≡ [] }
    {
        Report {
            alloc,
            lines: Vec::new(alloc),
        }
    }

    /// A report of one line of words, a blank between one and the next.
    ///
    /// An error comes only where memory for it was refused.
    pub fn of_line(alloc: Global, words: &[&[u8]]) -> Result<Report, AllocError>
        ensures { IfOk result (λ report. report ≡ look_line (map (λ word. word.now) words.now)) }
    {
        let mut report = Report::new(alloc);
        report.line(words)?;
        Ok(report)
    }

    /// The allocator that the report's memory comes from.
    pub fn alloc(&self) -> Global {
        self.alloc
    }

    /// Its lines in their order, each without the `> ` before it and the LF at its end.
    pub fn lines(&self) -> &[List<u8>]
        ensures { result.now ≡ self.now }
    {
        self.lines.as_slice()
    }

    /// Adds a line.
    ///
    /// An error comes only where memory for it was refused.
    pub fn push(&mut self, line: Vec<u8>) -> Result<(), AllocError>
        ensures { OnOk result (self.new ≡ self.old ++ line.items ∷ []) }
    {
        self.lines.push(List::from_vec(line))?;
        Ok(())
    }

    /// Adds a line of words, a blank between one and the next.
    ///
    /// An error comes only where memory for it was refused.
    pub fn line(&mut self, words: &[&[u8]]) -> Result<(), AllocError>
        ensures { OnOk result (self.new ≡ self.old ++ look_line (map (λ word. word.now) words.now)) }
    {
        let line = joined_line(self.alloc, words)?;
        self.push(line)
    }

    /// Adds the lines of another report.
    ///
    /// An error comes only where memory for them was refused.
    pub fn append(&mut self, more: &Report) -> Result<(), AllocError>
        ensures { OnOk result (self.new ≡ self.old ++ more.now) }
    {
        push_copies(self.alloc, &mut self.lines, more.lines.as_slice())
    }

    /// Whether another report has the same lines. It takes no memory.
    pub fn is_same(&self, other: &Report) -> bool
        ensures { IsTrue result ↔ (self.now ≡ other.now) }
    {
        are_same_items(self.lines(), other.lines())
    }

    /// The report; where it has no line, one with a line of `word` and NONE.
    ///
    /// An error comes only where memory for that was refused.
    pub fn or_none(self, word: &[u8]) -> Result<Report, AllocError>
        ensures { IfOk result (λ report. report ≡ or_none word.now self) }
    {
        let mut report = self;
        if report.lines.is_empty() {
            report.line(&[word, b"NONE"])?;
        }
        Ok(report)
    }

    /// The report as it is written: each line after `> `, with LF at its end and no other.
    ///
    /// An error comes only where memory for it was refused.
    pub fn marked(&self) -> Result<Vec<u8>, AllocError>
        ensures { IfOk result (λ text. text.items ≡ marked self.now) }
    {
        let mut text = Vec::new(self.alloc);
        push_all_marked(&mut text, self.lines.as_slice())?;
        Ok(text)
    }
}
