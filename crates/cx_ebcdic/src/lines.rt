//! Lines of text in EBCDIC.
ghost use Rattle.std.specs.Prelude.{◌≡◌, ◌↔◌, Some, IfOk, IsErrOf, map, is_none, position};
ghost use Rattle.std.specs.List.{filter_map};
ghost use Rattle.std.specs.Str.{chars};
ghost use Rattle.cx_ebcdic.specs.Characters.{code_of};

use crate::characters::to_ebcdic;
use std::alloc::{AllocError, Global};
use thiserror::Error;

/// Why a text was not encoded.
#[derive(Clone, Copy, Debug, PartialEq, Eq, Error)]
pub enum TextFault {
    /// A character has no code: the index of the first such, counted from 0.
    #[error("no EBCDIC code for the character at {0}")]
    BadCharacter(usize),
    /// An allocation failed.
    #[error("out of memory")]
    Memory,
}

/// The EBCDIC codes of a text's characters, in order.
///
/// BadCharacter(place) comes where a character has no code: place is the index of the first such,
/// counted from 0. Memory comes only where an allocation failed, and never for such a text.
pub fn encode_line(alloc: Global, text: &str) -> Result<Vec<u8>, TextFault>
    ensures codes { IfOk result (λ bytes. map code_of (chars text.now) ≡ map Some bytes.items) }
    ensures place { (place : _) → IsErrOf result (TextFault.BadCharacter place)
        ↔ (position (λ c. is_none (code_of c)) (chars text.now) ≡ Some place) }
{
    match first_without_code(text) {
        Some(place) => Err(TextFault::BadCharacter(place)),
        None => codes_of(alloc, text).map_err(|_| TextFault::Memory),
    }
}

/// The index of the first character without a code.
fn first_without_code(text: &str) -> Option<usize>
    ensures { result ≡ position (λ c. is_none (code_of c)) (chars text.now) }
{
    text.chars().position(|c| to_ebcdic(c).is_none())
}

/// The codes of those characters that have one.
fn codes_of(alloc: Global, text: &str) -> Result<Vec<u8>, AllocError>
    ensures { IfOk result (λ bytes. bytes.items ≡ filter_map code_of (chars text.now)) }
{
    text.chars().filter_map(to_ebcdic).collect(alloc)
}
