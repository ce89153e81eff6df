//! The screen of a terminal, and the lines that a text is shown as.
ghost use Rattle.std.specs.Prelude.{◌≡◌, ℕ, ◌==◌, ◌<◌, ◌≤◌, List, ◌∷◌, length, false, position};
ghost use Rattle.std.specs.Option.{option_map};
ghost use Rattle.cx_service.specs.Lines.{new_line, IsLastBreak, AreLinesOf};
ghost use Rattle.cx_service.specs.Parts.LineSteps.{IsFirstPart, AreLinesLeft};
ghost use Rattle.cx_service.specs.Screen.{blank_screen, full_line, IsScreen, ShowsText};

use std::marker::Model;

/// The number of a screen's lines.
pub const ROWS: usize = 24;

/// The number of bytes in a line.
pub const COLUMNS: usize = 80;

/// The code of a blank.
const BLANK: u8 = 0x40;

/// The code of new line, which ends a part of a text.
const NEW_LINE: u8 = 0x15;

/// The screen of a terminal: 24 lines of 80 bytes, EBCDIC codes.
#[derive(Clone, Copy)]
pub struct Screen {
    cells: [[u8; COLUMNS]; ROWS],
}

impl Model for Screen {
    ghost use Rattle.std.specs.Prelude.{List, ℕ};

    ghost Value = { List (List ℕ) };

    ghost view = { λ screen. screen.cells };

    ghost use Rattle.cx_service.specs.Screen.{IsScreen};

    ghost invariant = { λ screen. IsScreen screen.cells };

    ghost inverse = { λ cells. record { cells = cells } };
}

impl Screen {
    /// A blank screen: each byte is X'40'.
    pub fn new() -> Screen
        ensures { result ≡ blank_screen }
    {
        Screen {
            cells: [[BLANK; COLUMNS]; ROWS],
        }
    }

    /// The 24 lines, from the top, each of 80 bytes.
    pub fn cells(&self) -> &[[u8; COLUMNS]; ROWS]
        ensures lines { result.now ≡ self.now }
        ensures sound { IsScreen self.now }
    {
        &self.cells
    }

    /// Shows a text from the top of the screen, which is blanked first where `erase` says so.
    ///
    /// The text is split at each X'15'. While a part is longer than 80 bytes, its next line is its first k bytes,
    /// for the greatest k from 1 to 80 whose following byte is a blank, and that blank is dropped; without one, its
    /// first 80 bytes. The rest is a line, be it empty. Each line is filled with blanks, and lines after the 24th
    /// aren't shown (SEND TEXT; the rule is this product's own).
    pub fn send_text(&mut self, text: &[u8], erase: bool)
        ensures { ShowsText self.old text.now erase self.new }
    {
        if erase {
            self.cells = [[BLANK; COLUMNS]; ROWS];
        }
        show_lines(&mut self.cells, text);
    }
}

/// Shows a text's lines from the top of a screen.
fn show_lines(rows: &mut [[u8; COLUMNS]; ROWS], text: &[u8])
    ensures { ShowsText rows.old text.now false rows.new }
{
    let mut left = Some(text);
    for i in 0..ROWS {
        let current = match left {
            Some(current) => current,
            None => return,
        };
        let (line, after) = first_line(current);
        rows[i] = full_line(line);
        left = after;
    }
}

/// A line filled with blanks.
fn full_line(line: &[u8]) -> [u8; COLUMNS]
    requires { length line.now ≤ COLUMNS }
    ensures { result ≡ full_line line.now }
{
    let mut filled = [BLANK; COLUMNS];
    for (i, byte) in line.iter().enumerate() {
        filled[i] = *byte;
    }
    filled
}

/// A text's first line, and the text after it; None where the line is the last.
fn first_line(text: &[u8]) -> (&[u8], Option<&[u8]>)
    ensures at_most_columns { length result.0.now ≤ COLUMNS }
    ensures goes_on { (lines : List (List ℕ)) → AreLinesLeft (option_map (λ left. left.now) result.1) lines
        → AreLinesOf text.now (result.0.now ∷ lines) }
{
    let (part, after) = first_part(text);
    if part.len() <= COLUMNS {
        return (part, after);
    }
    match last_break(part) {
        Some(k) => (part.split_at(k).0, Some(text.split_at(k + 1).1)),
        None => (part.split_at(COLUMNS).0, Some(text.split_at(COLUMNS).1)),
    }
}

/// A text's first part, and the text after the new line that ends it; None where the part is the last.
fn first_part(text: &[u8]) -> (&[u8], Option<&[u8]>)
    ensures within { length result.0.now ≤ length text.now }
    ensures first { IsFirstPart text.now result.0.now (option_map (λ left. left.now) result.1) }
{
    match end_of_part(text) {
        Some(end) => (text.split_at(end).0, Some(text.split_at(end + 1).1)),
        None => (text, None),
    }
}

/// The place of the text's first new line.
fn end_of_part(text: &[u8]) -> Option<usize>
    ensures { result ≡ position (λ byte. byte == new_line) text.now }
{
    text.iter().position(|byte| *byte == NEW_LINE)
}

/// The greatest k from 1 to 80 whose following byte in the part is a blank.
fn last_break(part: &[u8]) -> Option<usize>
    requires { COLUMNS < length part.now }
    ensures { IsLastBreak part.now result }
{
    let mut last = None;
    for k in 1..COLUMNS + 1 {
        if part[k] == BLANK {
            last = Some(k);
        }
    }
    last
}
