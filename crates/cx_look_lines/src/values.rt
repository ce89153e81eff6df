//! Bytes and names as a source writes them.
ghost use Rattle.std.specs.Prelude.{◌≡◌, ◌==◌, ◌++◌, IfOk, OnOk, Some, drop, false, map, take};
ghost use Rattle.std.specs.Option.{option_map_or};
ghost use Rattle.cx_ebcdic.specs.Characters.{code_of, shown_as};
ghost use Rattle.std.specs.List.{list_all};
ghost use Rattle.cx_base.specs.Digits.{hex_digits};
ghost use Rattle.cx_look_lines.specs.Words.{in_apostrophes, in_hexadecimal, is_plain, written_bytes, written_name};

use cx_base::{hexadecimal, shown, trim};
use cx_ebcdic::{shown_as, to_ebcdic};
use std::alloc::{AllocError, Global};

/// Whether a byte is the code of a character.
fn has_character(byte: u8) -> bool
    ensures { result ≡ option_map_or (λ code. code == byte) (code_of (shown_as byte)) false }
{
    match to_ebcdic(shown_as(byte)) {
        Some(code) => code == byte,
        None => false,
    }
}

/// Whether a byte is written between apostrophes as itself.
fn is_plain(byte: u8) -> bool
    ensures { result ≡ is_plain byte }
{
    has_character(byte) && shown_as(byte) != '\''
}

/// Whether each byte is written between apostrophes as itself.
fn are_plain(bytes: &[u8]) -> bool
    ensures { result ≡ list_all is_plain bytes.now }
{
    bytes.iter().all(|byte| is_plain(*byte))
}

/// A text between apostrophes, as it is: one in it isn't doubled.
///
/// An error comes only where memory for it was refused.
pub fn in_apostrophes(alloc: Global, text: &[u8]) -> Result<Vec<u8>, AllocError>
    ensures { IfOk result (λ value. value.items ≡ in_apostrophes text.now) }
{
    let mut value = b"'".to_vec(alloc)?;
    value.extend_from_slice(text)?;
    value.push(b'\'')?;
    Ok(value)
}

/// Bytes in hexadecimal digits, two for each.
///
/// An error comes only where memory for them was refused.
pub fn spelled(alloc: Global, bytes: &[u8]) -> Result<Vec<u8>, AllocError>
    ensures { IfOk result (λ text. text.items ≡ hex_digits bytes.now) }
{
    let mut text = Vec::new(alloc);
    for byte in bytes {
        text.extend_from_slice(&hexadecimal::<2>(u32::from(*byte)))?;
    }
    Ok(text)
}

/// The bytes from a place on, which may be absent ones; none where there are none. It takes no memory.
pub fn bytes_from<T>(bytes: &[T], place: usize) -> &[T]
    ensures { result.now ≡ drop place bytes.now }
{
    bytes.split_at(place.min(bytes.len())).1
}

/// The first `count` bytes, which may be absent ones, or all where there are fewer. It takes no memory.
pub fn first_bytes<T>(bytes: &[T], count: usize) -> &[T]
    ensures { result.now ≡ take count bytes.now }
{
    bytes.split_at(count.min(bytes.len())).0
}

/// These bytes as a row has them, in which any may be absent: here none is.
///
/// An error comes only where memory for them was refused.
pub fn present(alloc: Global, bytes: &[u8]) -> Result<Vec<Option<u8>>, AllocError>
    ensures { IfOk result (λ all. all.items ≡ map Some bytes.now) }
{
    bytes.iter().map(|byte| Some(*byte)).collect(alloc)
}

/// Bytes in hexadecimal.
fn in_hexadecimal(alloc: Global, bytes: &[u8]) -> Result<Vec<u8>, AllocError>
    ensures { IfOk result (λ value. value.items ≡ in_hexadecimal bytes.now) }
{
    let digits = spelled(alloc, bytes)?;
    let mut value = b"X'".to_vec(alloc)?;
    value.extend_from_slice(&digits)?;
    value.push(b'\'')?;
    Ok(value)
}

/// Bytes as characters between apostrophes; as `X'..'` in hexadecimal digits where one of them has no character, or is
/// an apostrophe.
///
/// An error comes only where memory for them was refused.
#[tactic(auto, unfolding(crate::specs::Words::written_bytes))]
pub fn written_bytes(alloc: Global, bytes: &[u8]) -> Result<Vec<u8>, AllocError>
    ensures { IfOk result (λ value. value.items ≡ written_bytes bytes.now) }
{
    if !are_plain(bytes) {
        return in_hexadecimal(alloc, bytes);
    }
    let text = shown(alloc, bytes)?;
    in_apostrophes(alloc, text.as_slice())
}

/// A name between apostrophes, without the blanks that fill it; as `X'..'` where `written_bytes` would have it so.
///
/// An error comes only where memory for it was refused.
#[tactic(auto, unfolding(crate::specs::Words::written_name))]
pub fn written_name(alloc: Global, name: &[u8]) -> Result<Vec<u8>, AllocError>
    ensures { IfOk result (λ value. value.items ≡ written_name name.now) }
{
    if !are_plain(name) {
        return in_hexadecimal(alloc, name);
    }
    let text = shown(alloc, name)?;
    in_apostrophes(alloc, trim(text.as_slice()))
}
