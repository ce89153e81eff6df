//! The numbers of the lines that use something.
ghost use Rattle.std.specs.Prelude.{◌≡◌, ◌==◌, ◌++◌, IfOk, OnOk, map};
ghost use Rattle.std.specs.List.{list_any};
ghost use Rattle.cx_look_lines.specs.Words.{with_blanks};
ghost use Rattle.cx_look_xref.specs.Texts.{use_line_word, used_word};

use cx_look_lines::{decimal, push_word};
use std::alloc::{AllocError, Global};

/// Whether a line is among others.
pub(crate) fn is_among(lines: &[usize], line: usize) -> bool
    ensures { result ≡ list_any (λ other. other == line) lines.now }
{
    lines.iter().any(|other| *other == line)
}

/// The number of a line, with an asterisk where the line stores.
fn use_line_word(alloc: Global, storing: &[usize], line: usize) -> Result<Vec<u8>, AllocError>
    ensures { IfOk result (λ word. word.items ≡ use_line_word storing.now line) }
{
    let mut word = decimal(alloc, line)?;
    if is_among(storing, line) {
        word.push(b'*')?;
    }
    Ok(word)
}

/// Adds the numbers of lines, each after a blank.
fn push_lines(
    alloc: Global,
    text: &mut Vec<u8>,
    storing: &[usize],
    lines: &[usize],
) -> Result<(), AllocError>
    ensures { OnOk result (text.new.items ≡ text.old.items ++ with_blanks (map (use_line_word storing.now) lines.now)) }
{
    for line in lines {
        push_word(text, &use_line_word(alloc, storing, *line)?)?;
    }
    Ok(())
}

/// USED, and the numbers of the lines that use something, each after a blank, and with an asterisk where it is among
/// those that store; NONE where there is no line.
///
/// An error comes only where memory for it was refused.
pub fn used_word(alloc: Global, storing: &[usize], lines: &[usize]) -> Result<Vec<u8>, AllocError>
    ensures { IfOk result (λ text. text.items ≡ used_word storing.now lines.now) }
{
    let mut text = b"USED".to_vec(alloc)?;
    if lines.is_empty() {
        push_word(&mut text, b"NONE")?;
        return Ok(text);
    }
    push_lines(alloc, &mut text, storing, lines)?;
    Ok(text)
}
