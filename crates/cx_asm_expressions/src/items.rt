//! Reading one item of a DC, a DS or a literal.

ghost use Rattle.std.specs.Prelude.{◌≡◌, ◌≤◌, ◌<◌, ◌^◌, is_some, slice_index, length, drop};
ghost use Rattle.std.specs.List.{prefix_len, take_while};
ghost use Rattle.std.specs.Option.{option_map};
ghost use Rattle.cx_asm_expressions.specs.Digits.{at_most, bound, is_digit, number_in};
ghost use Rattle.cx_asm_expressions.specs.Kinds.{kind_of, row_of_kind};
ghost use Rattle.cx_asm_expressions.specs.Items.{after_digits, body_in, constant, constant_in, duplication_in, modifier_in, parenthesized_body, value_in, with_modifier, with_value};

use crate::digits::{is_digit, number};
use crate::faults::FaultKind;
use crate::fields::are_decimals;
use crate::kinds::{ConstantKind, Style};
use crate::term_values::GREATEST;
use crate::texts::{APOSTROPHE, closed, is_doubled, is_paired};
use cx_source::{Delimiter, first_mark};
use std::marker::Model;

/// One item of a DC, a DS or a literal: its duplication factor, type, length modifier and nominal value (GC33-4010, "DC
/// -- Define Constant").
#[derive(Drop)]
pub struct Constant<'a> {
    duplication: u32,
    kind: ConstantKind,
    modifier: Option<u16>,
    value: Option<&'a [u8]>,
}

impl<'a> Model for Constant<'a> {
    ghost use Rattle.std.specs.Option.{option_map};
    ghost use Rattle.cx_asm_expressions.specs.Items.{Constant as ConstantValue, constant};

    ghost Value = { ConstantValue };

    ghost view = { λ it. constant it.duplication it.kind it.modifier (option_map (λ body. body.now) it.value) };
}

/// How many digits a text begins with.
fn digit_count(text: &[u8]) -> usize
    ensures count { result ≡ prefix_len (is_digit 10) text.now }
    ensures bound { result ≤ length text.now }
{
    for (i, c) in text.iter().enumerate() {
        if !is_digit(*c, 10) {
            return i;
        }
    }
    text.len()
}

/// The digits that a text begins with, and what follows them.
fn split_digits(text: &[u8]) -> (&[u8], &[u8])
    ensures digits { result.0.now ≡ take_while (is_digit 10) text.now }
    ensures after { result.1.now ≡ after_digits text.now }
{
    text.split_at(digit_count(text))
}

/// What is in one pair of parentheses, which is the whole text; None where the text is anything else (GC33-4010,
/// "Expressions"). Parentheses close in pairs.
pub fn parenthesized_body(value: &[u8]) -> Option<&[u8]>
    ensures { option_map (λ body. body.now) result ≡ parenthesized_body value.now }
{
    if value.is_empty() || value[0] != b'(' {
        return None;
    }
    let (_, after) = value.split_at(1);
    let (body, closing) = after.split_at(first_mark(after, Delimiter::Closing));
    if closing.len() == 1 { Some(body) } else { None }
}

/// What a value consists of, without what is round it.
fn body_in(style: Style, value: &[u8]) -> Option<&[u8]>
    ensures { option_map (λ body. body.now) result ≡ body_in style value.now }
{
    match style {
        Style::Text | Style::Values => {
            if value.is_empty() || value[0] != APOSTROPHE {
                return None;
            }
            let (_, after) = value.split_at(1);
            closed(after)
        }
        Style::Expression => parenthesized_body(value),
        Style::Nothing => None,
    }
}

/// Whether a value's text is whole.
fn is_whole(kind: ConstantKind, modified: bool, body: &[u8]) -> bool
    ensures { result ≡ (row_of_kind kind).is_whole modified body.now }
{
    match kind {
        ConstantKind::Character => is_paired(body),
        ConstantKind::Packed => is_doubled(APOSTROPHE, body) && (modified || are_decimals(body)),
        ConstantKind::Address | ConstantKind::External => true,
        _ => is_doubled(APOSTROPHE, body),
    }
}

/// An item's value, which isn't empty; a DS may leave it out. None where it is no value.
fn value_in(is_ds: bool, kind: ConstantKind, modified: bool, value: &[u8]) -> Option<Option<&[u8]>>
    ensures { option_map (λ value. option_map (λ body. body.now) value) result
        ≡ value_in is_ds kind modified value.now }
{
    if value.is_empty() {
        return if is_ds { Some(None) } else { None };
    }
    let body = body_in(kind.style(), value)?;
    if !body.is_empty() && is_whole(kind, modified, body) {
        Some(Some(body))
    } else {
        None
    }
}

/// A number that isn't greater than `most`.
#[tactic(auto, using(crate::proofs::NumberLemmas::bounded_number, crate::proofs::NumberLemmas::unbounded_number))]
fn number_at_most(digits: &[u8], most: u128) -> Option<u128>
    requires { most ≤ bound }
    ensures number { result ≡ at_most most (number_in 10 digits.now) }
{
    match number(digits, 10) {
        Some(number) if number <= most => Some(number),
        _ => None,
    }
}

/// The duplication factor.
fn duplication_in(digits: &[u8]) -> Option<u32>
    ensures { result ≡ duplication_in digits.now }
{
    if digits.is_empty() {
        return Some(1);
    }
    let number = number_at_most(digits, GREATEST)?;
    Some(number as u32)
}

/// A length modifier within its limits; Some(None) where there is none.
fn modifier_in(is_ds: bool, kind: ConstantKind, digits: Option<&[u8]>) -> Option<Option<u16>>
    ensures { let digits = option_map (λ digits. digits.now) digits.entry in result ≡ modifier_in is_ds kind digits }
{
    let Some(digits) = digits else {
        return Some(None);
    };
    let number = number_at_most(digits, kind.greatest_modifier(is_ds))?;
    if number == 0 {
        None
    } else {
        Some(Some(number as u16))
    }
}

/// The type that a text's first character stands for.
#[tactic(auto, using(crate::proofs::KindLemmas::no_kind_in))]
fn kind_at(rest: &[u8]) -> Option<ConstantKind>
    ensures { result ≡ kind_of (slice_index rest.now 0) }
{
    if rest.is_empty() {
        return None;
    }
    ConstantKind::from_letter(rest[0])
}

/// A text without its first character.
fn after_first(rest: &[u8]) -> &[u8]
    ensures { result.now ≡ drop 1 rest.now }
{
    if rest.is_empty() {
        return rest;
    }
    let (_, after) = rest.split_at(1);
    after
}

impl<'a> Constant<'a> {
    /// Reads one item of a DS (`is_ds`), or of a DC or a literal. It takes no memory.
    ///
    /// BadOperand comes for a text that is no such item: an unknown type, `L` without digits or where the type takes no
    /// modifier, no value in DC, a value that isn't one closed text or one pair of parentheses, or is empty, a single
    /// apostrophe or ampersand in C, a value of P that is no decimal where no modifier gives the length, D with a
    /// value. Else ValueOutOfRange comes for a duplication factor above 4,294,967,295 and a length modifier outside its
    /// limits.
    #[tactic(auto, unfolding(crate::specs::Items::constant_in))]
    pub fn read(text: &'a [u8], is_ds: bool) -> Result<Constant<'a>, FaultKind>
        ensures { result ≡ constant_in is_ds text.now }
    {
        let (duplication, rest) = split_digits(text);
        match kind_at(rest) {
            Some(kind) => Constant::with_modifier(is_ds, duplication, kind, after_first(rest)),
            None => Err(FaultKind::BadOperand),
        }
    }

    /// An item with or without a length modifier.
    fn with_modifier(
        is_ds: bool,
        duplication: &'a [u8],
        kind: ConstantKind,
        rest: &'a [u8],
    ) -> Result<Constant<'a>, FaultKind>
        ensures { result ≡ with_modifier is_ds duplication.now kind rest.now }
    {
        if rest.is_empty() || rest[0] != b'L' {
            return Constant::with_value(is_ds, duplication, kind, None, rest);
        }
        let (_, after) = rest.split_at(1);
        let (digits, value) = split_digits(after);
        if !kind.takes_modifier() || digits.is_empty() {
            return Err(FaultKind::BadOperand);
        }
        Constant::with_value(is_ds, duplication, kind, Some(digits), value)
    }

    /// An item with or without a value, where duplication and length modifier are within their limits.
    fn with_value(
        is_ds: bool,
        duplication: &'a [u8],
        kind: ConstantKind,
        modifier: Option<&'a [u8]>,
        value: &'a [u8],
    ) -> Result<Constant<'a>, FaultKind>
        ensures { let digits = option_map (λ digits. digits.now) modifier.entry in
            result ≡ with_value is_ds duplication.now kind digits value.now }
    {
        let Some(value) = value_in(is_ds, kind, modifier.is_some(), value) else {
            return Err(FaultKind::BadOperand);
        };
        let (Some(duplication), Some(modifier)) = (
            duplication_in(duplication),
            modifier_in(is_ds, kind, modifier),
        ) else {
            return Err(FaultKind::ValueOutOfRange);
        };
        Ok(Constant {
            duplication,
            kind,
            modifier,
            value,
        })
    }

    /// Its duplication factor: how many copies there are, 0 to 4,294,967,295; 1 where none is written.
    pub fn duplication(&self) -> u32
        ensures { result ≡ self.now.duplication }
    {
        self.duplication
    }

    /// Its type, by its letter.
    pub fn kind(&self) -> ConstantKind
        ensures { result ≡ self.now.kind }
    {
        self.kind
    }

    /// Its length modifier, in bytes; None where none is written.
    pub fn modifier(&self) -> Option<u16>
        ensures { result ≡ self.now.modifier }
    {
        self.modifier
    }

    /// Its nominal value without the apostrophes or parentheses round it; None where none is written.
    pub fn value(&self) -> Option<&[u8]>
        ensures { option_map (λ body. body.now) result ≡ self.now.value }
    {
        self.value
    }
}
