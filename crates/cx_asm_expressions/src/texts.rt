//! The characters between apostrophes.

ghost use Rattle.std.specs.Prelude.{◌≡◌, ◌≤◌, ◌&&◌, false, length};
ghost use Rattle.std.specs.Option.{option_map};
ghost use Rattle.cx_asm_expressions.specs.Digits.{at_most, bound};
ghost use Rattle.cx_asm_expressions.specs.Texts.{character_number, characters, before_apostrophe, code, has_codes, is_doubled, is_doubled_mark, is_paired};

use crate::digits::BOUND;
use cx_ebcdic::to_ebcdic;

/// An apostrophe.
pub(crate) const APOSTROPHE: u8 = b'\'';

/// An ampersand.
const AMPERSAND: u8 = b'&';

/// What precedes the apostrophe that ends a text, if one does.
pub(crate) fn closed(after: &[u8]) -> Option<&[u8]>
    ensures { option_map (λ body. body.now) result ≡ before_apostrophe after.now }
{
    let (last, body) = after.split_last()?;
    if *last == APOSTROPHE {
        Some(body)
    } else {
        None
    }
}

/// Whether a mark comes in twos alone.
pub(crate) fn is_doubled(mark: u8, body: &[u8]) -> bool
    ensures { result ≡ is_doubled mark false body.now }
{
    let mut opened = false;
    for c in body {
        if *c == mark {
            opened = !opened;
        } else if opened {
            return false;
        }
    }
    !opened
}

/// Whether apostrophes and ampersands come in twos alone.
pub(crate) fn is_paired(body: &[u8]) -> bool
    ensures { result ≡ is_paired body.now }
{
    is_doubled(APOSTROPHE, body) && is_doubled(AMPERSAND, body)
}

/// Whether a character has to be written twice.
pub(crate) fn is_doubled_mark(c: u8) -> bool
    ensures { result ≡ is_doubled_mark c }
{
    c == APOSTROPHE || c == AMPERSAND
}

/// Whether a character is the second of two apostrophes or ampersands; `opened` says that the one before is a first.
pub(crate) fn repeats(opened: bool, c: u8) -> bool
    ensures { result ≡ (opened && is_doubled_mark c) }
{
    opened && is_doubled_mark(c)
}

/// How many characters a text has, of two apostrophes or ampersands one.
pub(crate) fn character_count(body: &[u8]) -> usize
    ensures count { result ≡ length (characters body.now) }
    ensures bound { result ≤ length body.now }
{
    let mut count = 0;
    let mut opened = false;
    for c in body {
        if repeats(opened, *c) {
            opened = false;
        } else {
            count += 1;
            opened = is_doubled_mark(*c);
        }
    }
    count
}

/// The EBCDIC code of a character, 0 where it has none.
pub(crate) fn code(c: u8) -> u8
    ensures { result ≡ code c }
{
    to_ebcdic(char::from(c)).unwrap_or(0)
}

/// Whether every character has an EBCDIC code.
pub(crate) fn has_codes(body: &[u8]) -> bool
    ensures { result ≡ has_codes body.now }
{
    body.iter().all(|c| to_ebcdic(char::from(*c)).is_some())
}

/// The codes of a text's characters as one number, or None where it is beyond the bound.
pub(crate) fn character_number(body: &[u8]) -> Option<u128>
    ensures { result ≡ at_most bound (character_number body.now) }
{
    let mut number = 0;
    let mut opened = false;
    for c in body {
        if repeats(opened, *c) {
            opened = false;
        } else {
            number = number * 256 + u128::from(code(*c));
            if number > BOUND {
                return None;
            }
            opened = is_doubled_mark(*c);
        }
    }
    Some(number)
}
