//! A statement as it is shown by its line.
ghost use Rattle.std.specs.Prelude.{◌≡◌, ◌++◌, IfOk, OnOk, map, slice_get, unwrap_or, [], ◌-◌, option_map, ◌≤◌};
ghost use Rattle.cx_look_symbols.specs.Sources.{led_by, numbered_line, shown_character, source_lines, statement_at, statement_text, text_on};
ghost use Rattle.cx_look_symbols.specs.Lines.{line_in};

use crate::lines::{five_digits, line_in};
use crate::places::Spot;
use crate::sources::Sources;
use cx_base::List;
use cx_ebcdic::to_ebcdic;
use cx_look_lines::first_bytes;
use cx_source::{Text, skip_blanks, trim_blanks};
use std::alloc::{AllocError, Global};

/// The last column of a statement's entries; the next one marks that it goes on.
const LAST_COLUMN: usize = 71;

/// A byte of a line as it is shown: a period where it has no character.
fn shown_character(c: u8) -> u8
    ensures { result ≡ shown_character c }
{
    if to_ebcdic(char::from(c)).is_some() {
        c
    } else {
        b'.'
    }
}

/// Adds bytes as they are shown.
fn push_shown(text: &mut Vec<u8>, bytes: &[u8]) -> Result<(), AllocError>
    ensures { OnOk result (text.new.items ≡ text.old.items ++ map shown_character bytes.now) }
{
    for c in bytes {
        text.push(shown_character(*c))?;
    }
    Ok(())
}

/// Adds the text of a line.
#[tactic(auto, unfolding(crate::specs::Sources::statement_text))]
fn push_statement(text: &mut Vec<u8>, line: &[u8]) -> Result<(), AllocError>
    ensures { OnOk result (text.new.items ≡ text.old.items ++ statement_text line.now) }
{
    let columns = first_bytes(line, LAST_COLUMN);
    push_shown(text, trim_blanks(skip_blanks(columns)))
}

/// A source's line of a number, counted from 1; an empty one where there is none.
fn line_numbered(lines: &[Text], n: usize) -> &[u8]
    ensures { result.now ≡ unwrap_or (slice_get lines.now (n - 1)) [] }
{
    match lines.get(n.saturating_sub(1)) {
        Some(line) => line.as_slice(),
        None => &[],
    }
}

/// Adds the text of a source's line of a number, counted from 1: columns 1 to 71 without blanks at either end, a period
/// for a byte that has no character; nothing where there is no such line.
///
/// An error comes only where memory for it was refused; then some of it may be there.
pub fn push_text_on(text: &mut Vec<u8>, lines: &[Text], n: usize) -> Result<(), AllocError>
    ensures { OnOk result (text.new.items ≡ text.old.items ++ text_on lines.now n) }
{
    push_statement(text, line_numbered(lines, n))
}

/// A line's number and its text.
fn numbered_line(alloc: Global, lines: &[Text], n: usize) -> Result<List<u8>, AllocError>
    ensures { IfOk result (λ word. word ≡ numbered_line lines.now n) }
{
    let mut word = five_digits(n).to_vec(alloc)?;
    word.push(b' ')?;
    push_text_on(&mut word, lines, n)?;
    Ok(List::from_vec(word))
}

/// The line of the statement that has a byte, by its number in five decimal digits and its text: columns 1 to 71
/// without blanks at either end, a period for a byte that has no character. A statement on several lines, or made from
/// an EXEC, has its first line. None where no source defined the program, or no statement has the byte.
///
/// An error comes only where memory for the text was refused.
#[tactic(auto, unfolding(crate::specs::Sources::statement_at))]
pub fn statement_at(
    alloc: Global,
    sources: &Sources,
    spot: &Option<Spot>,
) -> Result<Option<List<u8>>, AllocError>
    ensures { IfOk result (λ word. word ≡ statement_at sources.now spot.now) }
{
    let Some(spot) = spot else {
        return Ok(None);
    };
    let Some(line) = line_in(sources.places(), spot.program, spot.offset) else {
        return Ok(None);
    };
    let word = numbered_line(alloc, sources.source_lines(spot.program), line)?;
    Ok(Some(word))
}

/// Adds words, and after them a statement, where there is one.
///
/// An error comes only where memory for them was refused; then some of them may be there.
pub fn push_led_by(
    text: &mut Vec<u8>,
    words: &[u8],
    statement: &Option<List<u8>>,
) -> Result<(), AllocError>
    ensures { OnOk result (text.new.items ≡ text.old.items ++ led_by words.now statement.now) }
{
    let Some(statement) = statement else {
        return Ok(());
    };
    text.extend_from_slice(words)?;
    text.extend_from_slice(statement.as_slice())?;
    Ok(())
}
