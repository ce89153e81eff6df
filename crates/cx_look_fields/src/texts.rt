//! What is written of a field's number.
ghost use Rattle.std.specs.Prelude.{◌≡◌, IfOk};
ghost use Rattle.std.specs.Fmt.{signed_decimal};
ghost use Rattle.cx_look_fields.specs.Texts.{number_text, reading_word, value_text};

use crate::numbers::number_as_read;
use crate::readings::Reading;
use cx_look_lines::joined;
use std::alloc::{AllocError, Global};

/// The words before a number.
fn reading_word(reading: Reading) -> &'static [u8]
    ensures { result.now ≡ reading_word reading }
{
    match reading {
        Reading::Binary | Reading::Packed => b" VALUE ",
        Reading::Zoned => b" ZONED ",
    }
}

/// A number in decimal digits.
fn signed_decimal(alloc: Global, number: i128) -> Result<Vec<u8>, AllocError>
    ensures { IfOk result (λ text. text.items ≡ signed_decimal number) }
{
    Ok(number.to_string(alloc)?.into_bytes())
}

/// The number that bytes are, if they are one.
fn number_text(alloc: Global, reading: Reading, bytes: &[u8]) -> Result<Vec<u8>, AllocError>
    ensures { IfOk result (λ text. text.items ≡ number_text bytes.now reading) }
{
    let Some(number) = number_as_read(alloc, reading, bytes)? else {
        return Ok(Vec::new(alloc));
    };
    let digits = signed_decimal(alloc, number)?;
    joined(alloc, reading_word(reading), &digits)
}

/// The number that a field's bytes are, after the words that say how they are read; empty where the bytes are no such
/// number, or how they are read isn't known.
///
/// An error comes only where memory for the text was refused.
#[tactic(auto, unfolding(crate::specs::Texts::value_text))]
pub fn value_text(
    alloc: Global,
    reading: Option<Reading>,
    bytes: &[u8],
) -> Result<Vec<u8>, AllocError>
    ensures { IfOk result (λ text. text.items ≡ value_text reading bytes.now) }
{
    match reading {
        Some(reading) => number_text(alloc, reading, bytes),
        None => Ok(Vec::new(alloc)),
    }
}
