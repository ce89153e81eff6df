//! Pages of 24 lines of 80 characters.

ghost use Rattle.std.specs.Prelude.{◌≡◌, ◌≤◌, ◌-◌, ◌++◌, IfOk, OnOk, List, length, map, slice_set};
ghost use Rattle.cx_base.specs.Pages.{IsPage, blank_page, lines_from, numbered_page_line, page_text};
ghost use Rattle.cx_base.specs.Texts.{in_columns, join, shown_text, trim};

use crate::digits::decimal;
use crate::texts::{in_columns, shown_bytes, trim};
use std::alloc::{AllocError, Global};
use std::marker::Model;

/// The number of a page's lines.
pub const LINES: usize = 24;

/// The number of characters in a line.
pub const COLUMNS: usize = 80;

/// A page: 24 lines of 80 characters.
#[derive(Clone, Copy)]
pub struct Page {
    lines: [[u8; COLUMNS]; LINES],
}

impl Model for Page {
    ghost use Rattle.std.specs.Prelude.{List, ℕ};

    ghost Value = { List (List ℕ) };

    ghost view = { λ page. page.lines };

    ghost use Rattle.cx_base.specs.Pages.{IsPage};

    ghost invariant = { λ page. IsPage page.lines };

    ghost inverse = { λ lines. record { lines = lines } };
}

impl Page {
    /// A blank page. It takes no memory.
    pub fn blank() -> Page
        ensures { result ≡ blank_page }
    {
        Page {
            lines: [[b' '; COLUMNS]; LINES],
        }
    }

    /// The page that shows these lines of bytes, each byte by its character in EBCDIC, or a period where it has none.
    /// It takes no memory.
    pub fn of_bytes(lines: &[[u8; COLUMNS]; LINES]) -> Page
        requires { IsPage lines.now }
        ensures { result ≡ map shown_text lines.now }
    {
        let mut page = *lines;
        show_lines(&mut page);
        Page { lines: page }
    }

    /// The 24 lines, from the top, each of 80 characters.
    pub fn lines(&self) -> &[[u8; COLUMNS]; LINES]
        ensures lines { result.now ≡ self.now }
        ensures sound { IsPage self.now }
    {
        &self.lines
    }

    /// Puts pieces, one after the other, in place of a line, counted from 1 to 24: what is past column 80 is cut, and
    /// blanks fill the line. It takes no memory.
    pub fn put_line(&mut self, line: usize, pieces: &[&[u8]])
        requires from { 1 ≤ line }
        requires to { line ≤ 24 }
        ensures { self.new
            ≡ slice_set self.old (line - 1) (in_columns 80 (join (map (λ piece. piece.now) pieces.now))) }
    {
        self.lines[line - 1] = in_columns(pieces);
    }

    /// Puts the lines that are not wholly blank after a text: each with its number in two digits, `|`, its characters
    /// without the blanks at its end, and LF.
    ///
    /// An error comes only where memory for them was refused; of the text nothing is promised then.
    #[tactic(auto, unfolding(crate::specs::Pages::page_text))]
    pub fn push_text(&self, text: &mut Vec<u8>) -> Result<(), AllocError>
        ensures { OnOk result (text.new.items ≡ text.old.items ++ page_text self.now) }
    {
        push_lines(text, &self.lines)
    }
}

/// Adds the lines of a page.
fn push_lines(text: &mut Vec<u8>, lines: &[[u8; COLUMNS]]) -> Result<(), AllocError>
    requires { length lines.now ≤ 24 }
    ensures { OnOk result (text.new.items ≡ text.old.items ++ lines_from 1 lines.now) }
{
    for (i, line) in lines.iter().enumerate() {
        push_line(text, i as u32 + 1, line)?;
    }
    Ok(())
}

/// Adds a line of a page with its number, unless it is wholly blank.
fn push_line(text: &mut Vec<u8>, number: u32, line: &[u8]) -> Result<(), AllocError>
    ensures { OnOk result (text.new.items ≡ text.old.items ++ numbered_page_line number (trim line.now)) }
{
    let line = trim(line);
    if line.is_empty() {
        return Ok(());
    }
    text.extend_from_slice(&decimal::<2>(number))?;
    text.push(b'|')?;
    text.extend_from_slice(line)?;
    text.push(b'\n')?;
    Ok(())
}

/// Shows the bytes of each of these lines in their places.
fn show_lines(lines: &mut [[u8; COLUMNS]; LINES])
    ensures { lines.new ≡ map shown_text lines.old }
{
    for i in 0..LINES {
        lines[i] = shown_bytes(&lines[i]);
    }
}
