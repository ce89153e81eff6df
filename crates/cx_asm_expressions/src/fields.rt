//! Values with commas between, and signed decimals.

ghost use Rattle.std.specs.Prelude.{◌≡◌, ◌≤◌, ◌+◌, ◌/◌, IfOk, length, map};
ghost use Rattle.std.specs.List.{list_all};
ghost use Rattle.cx_asm_expressions.specs.Fields.{fields, is_decimal, without_sign};

use crate::digits::is_number;
use crate::terms::is_sign;
use std::alloc::{AllocError, Global};

/// A decimal without its sign.
pub(crate) fn unsigned(field: &[u8]) -> &[u8]
    ensures digits { result.now ≡ without_sign field.now }
    ensures bound { length result.now ≤ length field.now }
{
    if !field.is_empty() && is_sign(field[0]) {
        let (_, digits) = field.split_at(1);
        return digits;
    }
    field
}

/// Whether a text is a decimal, with a sign or without.
pub(crate) fn is_decimal(field: &[u8]) -> bool
    ensures { result ≡ is_decimal field.now }
{
    is_number(unsigned(field), 10)
}

/// The least number of bytes that hold a decimal's digits and its sign.
pub(crate) fn packed_length(field: &[u8]) -> usize
    ensures length { result ≡ length (without_sign field.now) / 2 + 1 }
    ensures bound { result ≤ length field.now + 1 }
{
    unsigned(field).len() / 2 + 1
}

/// Whether each of the values between commas is a decimal.
#[tactic(auto, using(crate::proofs::FieldLemmas::all_split))]
pub(crate) fn are_decimals(body: &[u8]) -> bool
    ensures { result ≡ list_all is_decimal (fields body.now) }
{
    let mut start = 0;
    for (i, c) in body.iter().enumerate() {
        if *c == b',' {
            if !is_decimal(&body[start..i]) {
                return false;
            }
            start = i + 1;
        }
    }
    is_decimal(&body[start..])
}

/// The values between commas.
#[tactic(auto, using(crate::proofs::FieldLemmas::split_at_commas))]
pub(crate) fn fields(alloc: Global, body: &[u8]) -> Result<Vec<&[u8]>, AllocError>
    ensures { IfOk result (λ found. map (λ field. field.now) found.items ≡ fields body.now) }
{
    let mut found = Vec::new(alloc);
    let mut start = 0;
    for (i, c) in body.iter().enumerate() {
        if *c == b',' {
            found.push(&body[start..i])?;
            start = i + 1;
        }
    }
    found.push(&body[start..])?;
    Ok(found)
}
