//! An operand of EXEC cut into its words and the arguments in parentheses after them.

ghost use Rattle.std.specs.Prelude.{◌≡◌, ◌<◌, ◌≤◌, ◌+◌, ◌^◌, ◌++◌, [], IfOk, OnOk, length};
ghost use Rattle.cx_translate.specs.Pieces.{depth_after, end_of_pieces, is_cut, last_of, pieces_from, pieces_of, word};

use cx_source::{Text, outside};
use std::alloc::{AllocError, Global};

/// A piece of the operand of an EXEC statement, as it is cut.
#[derive(Drop)]
pub enum Token {
    /// A word: what stands between blanks and parentheses.
    Word(Text),
    /// What is between two parentheses that belong together.
    Argument(Text),
    /// What has only one of two parentheses, with it: an argument that isn't closed, to the operand's end, or a `)`
    /// alone.
    Broken(Text),
}

/// How many parentheses are open after a character.
#[tactic(auto, unfolding(crate::specs::Pieces::depth_after))]
fn depth_after(depth: usize, is_outside: bool, c: u8) -> usize
    requires { depth + 1 < 2 ^ 64 }
    ensures value { result ≡ depth_after depth is_outside c }
    ensures bound { result ≤ depth + 1 }
{
    match c {
        b'(' if is_outside => depth + 1,
        b')' if is_outside => depth.saturating_sub(1),
        _ => depth,
    }
}

/// Whether a piece ends before a character.
#[tactic(auto, unfolding(crate::specs::Pieces::is_cut))]
fn is_cut(depth: usize, is_outside: bool, c: u8) -> bool
    ensures { result ≡ is_cut depth is_outside c }
{
    let ends = match depth {
        0 => c == b' ' || c == b'(' || c == b')',
        1 => c == b')',
        _ => false,
    };
    is_outside && ends
}

/// Puts a word after the pieces, where there is one.
fn push_word(alloc: Global, pieces: &mut Vec<Token>, part: &[u8]) -> Result<(), AllocError>
    ensures { OnOk result (pieces.new.items ≡ pieces.old.items ++ word part.now) }
{
    if !part.is_empty() {
        pieces.push(Token::Word(Text::from_slice(alloc, part)?))?;
    }
    Ok(())
}

/// Puts the pieces that end at a character after the others.
#[tactic(auto, unfolding(crate::specs::Pieces::end_of_pieces))]
fn push_ended(
    alloc: Global,
    pieces: &mut Vec<Token>,
    depth: usize,
    part: &[u8],
    c: u8,
) -> Result<(), AllocError>
    ensures { OnOk result (pieces.new.items ≡ pieces.old.items ++ end_of_pieces depth part.now c) }
{
    if depth > 0 {
        pieces.push(Token::Argument(Text::from_slice(alloc, part)?))?;
        return Ok(());
    }
    push_word(alloc, pieces, part)?;
    if c == b')' {
        pieces.push(Token::Broken(Text::from_slice(alloc, b")")?))?;
    }
    Ok(())
}

/// Puts what is left at the operand's end after the pieces.
#[tactic(auto, unfolding(crate::specs::Pieces::last_of))]
fn push_last(
    alloc: Global,
    pieces: &mut Vec<Token>,
    depth: usize,
    part: &[u8],
) -> Result<(), AllocError>
    ensures { OnOk result (pieces.new.items ≡ pieces.old.items ++ last_of depth part.now) }
{
    if depth == 0 {
        return push_word(alloc, pieces, part);
    }
    let mut text = Vec::from_slice(alloc, b"(")?;
    text.extend_from_slice(part)?;
    pieces.push(Token::Broken(Text::from_vec(text)))?;
    Ok(())
}

/// The pieces of a text, of which each character is known to lie outside apostrophes or not.
fn pieces_in(alloc: Global, text: &[u8], marks: &[bool]) -> Result<Vec<Token>, AllocError>
    requires { length marks.now ≡ length text.now }
    ensures { IfOk result (λ pieces. pieces.items ≡ pieces_from 0 [] marks.now text.now) }
{
    let mut pieces = Vec::new(alloc);
    let mut depth = 0;
    let mut start = 0;
    for (i, c) in text.iter().enumerate() {
        let (before, ends) = (depth, is_cut(depth, marks[i], *c));
        depth = depth_after(depth, marks[i], *c);
        if ends {
            push_ended(alloc, &mut pieces, before, &text[start..i], *c)?;
            start = i + 1;
        }
    }
    push_last(alloc, &mut pieces, depth, &text[start..])?;
    Ok(pieces)
}

/// The words of an operand and the arguments after them, in order.
///
/// Blanks, and parentheses that aren't within others, cut it; what is in apostrophes cuts nothing.
/// An argument that isn't closed takes the rest. An error comes only where an allocation failed.
#[tactic(auto, using(crate::proofs::PieceLemmas::marks_length), unfolding(crate::specs::Pieces::pieces_of))]
pub(crate) fn pieces_of(alloc: Global, text: &[u8]) -> Result<Vec<Token>, AllocError>
    ensures { IfOk result (λ pieces. pieces.items ≡ pieces_of text.now) }
{
    let marks = outside(alloc, text)?;
    pieces_in(alloc, text, marks.as_slice())
}
