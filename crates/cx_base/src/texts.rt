//! Bytes as they are shown, words and lines.

ghost use Rattle.std.specs.Prelude.{◌≡◌, ◌≤◌, ◌++◌, ℕ, IfOk, List, [], ◌∷◌, length, map, take_while};
ghost use Rattle.cx_ebcdic.specs.Characters.{shown_as};
ghost use Rattle.cx_base.specs.Parts.Fields.{HoldsText};
ghost use Rattle.cx_base.specs.Texts.{in_columns, is_filled, join, shown_text, shown_name, trim, written_line};

use cx_ebcdic::{Name, shown_as};
use std::alloc::{AllocError, Global};

/// The code of a blank, which fills names.
const BLANK: u8 = 0x40;

/// The character that shows a byte; each is below 128. It takes no memory.
#[tactic(auto, using(crate::proofs::ShownLemmas::shown_below))]
pub fn shown_byte(byte: u8) -> u8
    ensures { result ≡ shown_as byte }
{
    shown_as(byte) as u8
}

/// Bytes as they are shown: a character for each byte.
///
/// An error comes only where memory for them was refused.
pub fn shown(alloc: Global, bytes: &[u8]) -> Result<Vec<u8>, AllocError>
    ensures { IfOk result (λ text. text.items ≡ shown_text bytes.now) }
{
    bytes.iter().map(|byte| shown_byte(*byte)).collect(alloc)
}

/// Bytes as they are shown: a character for each byte. It takes no memory.
pub fn shown_bytes<const COUNT: usize>(bytes: &[u8; COUNT]) -> [u8; COUNT]
    ensures { result ≡ shown_text bytes.now }
{
    let mut text = *bytes;
    show(&mut text);
    text
}

/// Shows each of these bytes in its place.
fn show(bytes: &mut [u8])
    ensures { bytes.new ≡ shown_text bytes.old }
{
    for i in 0..bytes.len() {
        bytes[i] = shown_byte(bytes[i]);
    }
}

/// A name as it is shown, up to its first blank (X'40').
///
/// An error comes only where memory for it was refused.
#[tactic(auto, unfolding(crate::specs::Texts::shown_name))]
pub fn shown_name<const WIDTH: usize>(
    alloc: Global,
    name: Name<WIDTH>,
) -> Result<Vec<u8>, AllocError>
    ensures { IfOk result (λ text. text.items ≡ shown_name name.entry) }
{
    shown_word(alloc, &name.bytes())
}

/// Bytes up to the first blank, as they are shown.
fn shown_word(alloc: Global, bytes: &[u8]) -> Result<Vec<u8>, AllocError>
    ensures { IfOk result (λ text. text.items ≡ shown_text (take_while is_filled bytes.now)) }
{
    bytes
        .iter()
        .take_while(|byte| **byte != BLANK)
        .map(|byte| shown_byte(*byte))
        .collect(alloc)
}

/// A line of these words, with one blank between two, and LF at its end.
///
/// An error comes only where memory for it was refused.
pub fn written_line(alloc: Global, first: &[u8], words: &[&[u8]]) -> Result<Vec<u8>, AllocError>
    ensures { IfOk result (λ text. text.items ≡ written_line first.now (map (λ word. word.now) words.now)) }
{
    let mut text = first.to_vec(alloc)?;
    for word in words {
        text.push(b' ')?;
        text.extend_from_slice(word)?;
    }
    text.push(b'\n')?;
    Ok(text)
}

/// A text without the blanks at its end. It takes no memory.
pub fn trim(text: &[u8]) -> &[u8]
    ensures { result.now ≡ trim text.now }
{
    let mut len = text.len();
    while len > 0 && text[len - 1] == b' ' {
        len -= 1;
    }
    &text[..len]
}

/// Puts a character after the text that a field shows, where there is room, and answers where the next one goes.
#[tactic(auto, using(crate::proofs::FieldLemmas::one_more, crate::proofs::FieldLemmas::no_more))]
fn put(field: &mut [u8], at: usize, character: u8) -> usize
    requires { at ≤ length field.old }
    ensures holds { (text : List ℕ) → HoldsText field.old at text
        → HoldsText field.new result (text ++ character ∷ []) }
    ensures within { result ≤ length field.new }
    ensures length { length field.new ≡ length field.old }
{
    if at < field.len() {
        field[at] = character;
        return at + 1;
    }
    at
}

/// Puts a piece after the text that a field shows, as far as there is room, and answers where the next one goes.
#[tactic(auto, using(crate::proofs::FieldLemmas::no_piece, crate::proofs::FieldLemmas::next_of))]
fn put_piece(field: &mut [u8], at: usize, piece: &[u8]) -> usize
    requires { at ≤ length field.old }
    ensures holds { (text : List ℕ) → HoldsText field.old at text → HoldsText field.new result (text ++ piece.now) }
    ensures within { result ≤ length field.new }
    ensures length { length field.new ≡ length field.old }
{
    let mut end = at;
    for character in piece {
        end = put(field, end, *character);
    }
    end
}

/// These pieces, one after the other, in `COLUMNS` columns: what is beyond them is cut, and blanks fill
/// them. It takes no memory.
#[tactic(auto, using(crate::proofs::FieldLemmas::blank_field))]
pub fn in_columns<const COLUMNS: usize>(pieces: &[&[u8]]) -> [u8; COLUMNS]
    ensures { result ≡ in_columns COLUMNS (join (map (λ piece. piece.now) pieces.now)) }
{
    let mut field = [b' '; COLUMNS];
    let mut at = 0;
    for piece in pieces {
        at = put_piece(&mut field, at, piece);
    }
    field
}
