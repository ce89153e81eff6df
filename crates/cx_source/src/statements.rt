//! The statements of a source, made of the texts of its lines.

ghost use Rattle.std.specs.Prelude.{◌≡◌, ◌++◌, ◌||◌, if◌then◌else◌, IfOk, None, Some, false};
ghost use Rattle.cx_source.specs.Lines.{is_comment, is_marked};
ghost use Rattle.cx_source.specs.Statements.{is_continued, is_last, items_from, operand_written, statement_beginning, written_on};

use crate::lines::{columns, entries_of, is_comment, is_end, is_marked, skip_blanks, trim_blanks};
use crate::marks::{Delimiter, first_mark};
use crate::source::{Item, Stmt, Text};
use cx_base::List;
use std::alloc::{AllocError, Global};
use std::collections::VecDeque;

/// The columns of a continuation line on which its statement goes on.
const CONTINUED: (usize, usize) = (16, 71);

/// Whether the next line continues this one's statement: column 72 isn't blank, and the line either continues a
/// statement itself (`continues`) or is no comment.
#[tactic(auto, unfolding(crate::specs::Statements::is_continued))]
pub fn is_continued(continues: bool, text: &[u8]) -> bool
    ensures { result ≡ is_continued continues text.now }
{
    is_marked(text) && (continues || !is_comment(text))
}

/// Whether the source ends with this line.
#[tactic(auto, unfolding(crate::specs::Statements::is_last))]
pub(crate) fn is_last(continues: bool, text: &[u8]) -> bool
    ensures { result ≡ is_last continues text.now }
{
    !continues && !is_comment(text) && is_end(text)
}

/// What is written after a statement's operation: on its first line, and on those that continue it.
fn written(
    alloc: Global,
    after: &[u8],
    first: &[u8],
    more: &VecDeque<Text>,
) -> Result<Vec<u8>, AllocError>
    ensures { IfOk result (λ written. written.items ≡ after.now ++ written_on (is_marked first.now) more.now.items) }
{
    let mut written = Vec::from_slice(alloc, after)?;
    let mut marked = is_marked(first);
    let mut next = 0;
    while marked {
        let Some(text) = more.get(next) else {
            return Ok(written);
        };
        written.extend_from_slice(columns(text.as_slice(), CONTINUED.0, CONTINUED.1))?;
        marked = is_marked(text.as_slice());
        next += 1;
    }
    Ok(written)
}

/// The operand among what is written after an operation.
#[tactic(auto, unfolding(crate::specs::Statements::operand_written))]
fn operand_written<'a>(operation: &[u8], written: &'a [u8]) -> &'a [u8]
    ensures { result.now ≡ operand_written operation.now written.now }
{
    let text = trim_blanks(skip_blanks(written));
    if operation == b"EXEC".as_slice() {
        return text;
    }
    let (operand, _) = text.split_at(first_mark(text, Delimiter::Blank));
    operand
}

/// The statement that begins on a line, with the lines after it.
#[tactic(auto, unfolding(crate::specs::Statements::statement_beginning))]
fn statement_beginning(
    alloc: Global,
    first: &[u8],
    more: &VecDeque<Text>,
) -> Result<Stmt, AllocError>
    ensures { IfOk result (λ stmt. stmt ≡ statement_beginning first.now more.now.items) }
{
    let entries = entries_of(first);
    let written = written(alloc, entries.after, first, more)?;
    Ok(Stmt {
        name: List::from_slice(alloc, entries.name)?,
        operation: List::from_slice(alloc, entries.operation)?,
        operand: List::from_slice(
            alloc,
            operand_written(entries.operation, written.as_slice()),
        )?,
    })
}

/// The statement that begins on a line, if one does.
fn statement_at(
    alloc: Global,
    continues: bool,
    text: &[u8],
    more: &VecDeque<Text>,
) -> Result<Option<Stmt>, AllocError>
    ensures { IfOk result (λ stmt. stmt
        ≡ (if continues || is_comment text.now then None else Some (statement_beginning text.now more.now.items))) }
{
    if continues || is_comment(text) {
        return Ok(None);
    }
    Ok(Some(statement_beginning(alloc, text, more)?))
}

/// The lines of a source with their numbers and statements.
pub(crate) fn items_of(alloc: Global, mut texts: VecDeque<Text>) -> Result<Vec<Item>, AllocError>
    ensures { IfOk result (λ items. items.items ≡ items_from false 1 texts.items) }
{
    let mut items = Vec::new(alloc);
    let mut continues = false;
    while let Some(text) = texts.pop_front() {
        let stmt = statement_at(alloc, continues, text.as_slice(), &texts)?;
        continues = is_continued(continues, text.as_slice());
        items.push(Item {
            line: items.len() + 1,
            text,
            stmt,
        })?;
    }
    Ok(items)
}
