//! Screens by rows worked by hand: texts that are sent, and lines that the screen shows then.
use cx_base::{Replica, Same};
use cx_service::{COLUMNS, ROWS, Screen};
use std::alloc::{AllocError, Global};
use std::test::Fail;

/// The codes of letters.
const A: u8 = 0xC1;

const B: u8 = 0xC2;

const C: u8 = 0xC3;

/// A blank.
const BLANK: u8 = 0x40;

/// What ends a line.
const NEW_LINE: u8 = 0x15;

/// A text: bytes, each with how often it stands there.
type Text = &'static [(u8, usize)];

/// Texts sent one after the other, whether the screen is blanked first, and the lines from the top that it shows then.
const SHOWN: &[(Text, bool, &[Text])] = &[
    (
        &[(A, 79), (BLANK, 1), (B, 1), (C, 1)],
        true,
        &[&[(A, 79)], &[(B, 1), (C, 1)], &[]],
    ),
    (&[(A, 81)], false, &[&[(A, 80)], &[(A, 1)]]),
];

/// The bytes of a text.
fn bytes(alloc: Global, text: &[(u8, usize)]) -> Result<Vec<u8>, AllocError> {
    let mut bytes = Vec::new(alloc);
    for &(byte, count) in text {
        for _ in 0..count {
            bytes.push(byte)?;
        }
    }
    Ok(bytes)
}

/// Sends a text, without what the contract ensures.
fn send(screen: &mut Screen, text: &[u8], erase: bool) {
    screen.send_text(text, erase);
}

/// Whether a line of the screen is the text filled with blanks.
fn shows(screen: &Screen, row: usize, text: &[u8]) -> bool {
    let Some(line) = screen.cells().get(row) else {
        return false;
    };
    for (i, cell) in line.iter().enumerate() {
        if *cell != text.get(i).copied().unwrap_or(BLANK) {
            return false;
        }
    }
    true
}

/// Sends a text to a screen.
fn sends(
    alloc: Global,
    screen: &mut Screen,
    text: &[(u8, usize)],
    erase: bool,
) -> Result<(), AllocError> {
    let text = bytes(alloc, text)?;
    send(screen, text.as_slice(), erase);
    Ok(())
}

/// Whether the screen's lines from the top are these.
fn has_lines(alloc: Global, screen: &Screen, lines: &[Text]) -> Result<bool, AllocError> {
    for (row, line) in lines.iter().enumerate() {
        let line = bytes(alloc, line)?;
        if !shows(screen, row, line.as_slice()) {
            return Ok(false);
        }
    }
    Ok(true)
}

/// How many texts are shown as they should be before the first that isn't.
fn count_shown(alloc: Global, screen: &mut Screen) -> Result<usize, AllocError> {
    for (number, (text, erase, lines)) in SHOWN.iter().enumerate() {
        sends(alloc, screen, text, *erase)?;
        if !has_lines(alloc, screen, lines)? {
            return Ok(number);
        }
    }
    Ok(SHOWN.len())
}

#[test]
fn texts_are_shown(rt: HostRuntime) {
    let shown = count_shown(rt.alloc(), &mut Screen::new());
    assert!(rt; shown == Ok(SHOWN.len()));
}

/// A letter on each of 25 lines, which new lines end.
fn letters() -> [u8; 49] {
    let mut text = [NEW_LINE; 49];
    for i in 0..25u8 {
        text[2 * usize::from(i)] = A + i;
    }
    text
}

/// Whether each line of the screen is the letter of its number.
fn shows_letters(screen: &Screen) -> bool {
    (0..24u8).all(|i| shows(screen, usize::from(i), &[A + i]))
}

#[test]
fn a_screen_has_24_lines_of_80_bytes(rt: HostRuntime) {
    assert!(rt; ROWS == 24 && COLUMNS == 80);
    let mut screen = Screen::new();
    send(&mut screen, &letters(), true);
    assert!(rt; shows_letters(&screen));
    send(&mut screen, &[], false);
    assert!(rt; shows(&screen, 0, &[]) && shows(&screen, 1, &[B]));
}

#[test]
fn screens_are_made_anew(rt: HostRuntime) -> Result<(), Fail> {
    let mut screen = Screen::new();
    send(&mut screen, &[A], true);
    let copy = screen.replica(rt.alloc())?;
    assert!(rt; copy.is_same(&screen));
    send(&mut screen, &[B], true);
    assert!(rt; !copy.is_same(&screen));
    Ok(())
}
