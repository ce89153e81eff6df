//! The words of a line, and what they spell.

ghost use Rattle.std.specs.Prelude.{◌≡◌, ◌≤◌, ◌<◌, ◌+◌, ◌^◌, IfOk, IfSome, OnErr, Some, None, is_some, true, length, drop, position};
ghost use Rattle.std.specs.Option.{option_map};
ghost use Rattle.std.specs.List.{filter_map, list_all};
ghost use Rattle.std.specs.Char.{is_ascii_digit};
ghost use Rattle.cx_ebcdic.specs.Characters.{code_of};
ghost use Rattle.cx_ebcdic.specs.Names.{padded_name};
ghost use Rattle.cx_script_actions.specs.Words.{after_first_blank, codes_of_key, decimal, is_blank, number_with_digits, word};

use cx_code::Bytes;
use cx_ebcdic::{Name4, Name8, to_ebcdic};
use std::alloc::{AllocError, Global};

/// The most characters of a key's text.
const MOST_IN_KEY: usize = 1_920;

/// The place of the first blank.
fn first_blank(text: &[u8]) -> Option<usize>
    ensures { result ≡ position is_blank text.now }
{
    text.iter().position(|c| *c == b' ')
}

/// The first word of a text, up to its first blank (X'20'), and what follows that blank; None where there is no blank.
pub fn split_word(text: &[u8]) -> (&[u8], Option<&[u8]>)
    ensures word { result.0.now ≡ word text.now }
    ensures after { option_map (λ rest. rest.now) result.1 ≡ after_first_blank text.now }
{
    match first_blank(text) {
        Some(place) => (text.split_at(place).0, Some(text.split_at(place + 1).1)),
        None => (text, None),
    }
}

/// The name that a word spells: one to four of A to Z, 0 to 9, `@`, `#` and `$`; None of any other word.
#[tactic(auto, using(crate::proofs::WordLemmas::no_name))]
pub fn name4(word: &[u8]) -> Option<Name4>
    ensures { result ≡ padded_name 4 word.now }
{
    match str::from_utf8(word) {
        Ok(text) => Name4::from_text(text),
        Err(_) => None,
    }
}

/// The name that a word spells: one to eight of A to Z, 0 to 9, `@`, `#` and `$`; None of any other word.
#[tactic(auto, using(crate::proofs::WordLemmas::no_name))]
pub fn name8(word: &[u8]) -> Option<Name8>
    ensures { result ≡ padded_name 8 word.now }
{
    match str::from_utf8(word) {
        Ok(text) => Name8::from_text(text),
        Err(_) => None,
    }
}

/// Whether all of these are decimal digits.
fn are_digits(text: &[u8]) -> bool
    ensures { result ≡ list_all is_ascii_digit text.now }
{
    text.iter().all(|c| c.is_ascii_digit())
}

/// The number that at most nine decimal digits spell.
#[tactic(auto, using(crate::proofs::WordLemmas::digit_fits, crate::proofs::WordLemmas::digit_at))]
fn decimal(digits: &[u8]) -> u32
    requires at_most_9 { length digits.now ≤ 9 }
    requires digits { list_all is_ascii_digit digits.now ≡ true }
    ensures value { result ≡ decimal digits.now }
    ensures bound { result < 10 ^ length digits.now }
{
    let mut number: u32 = 0;
    for digit in digits {
        number = number * 10 + u32::from(*digit - b'0');
    }
    number
}

/// The number that a word of `least` to `most` decimal digits, at most nine, spells; None of any other word.
#[tactic(auto, unfolding(crate::specs::Words::number_with_digits))]
pub fn number(word: &[u8], least: usize, most: usize) -> Option<u32>
    requires { most ≤ 9 }
    ensures value { result ≡ number_with_digits least most word.now }
    ensures bound { IfSome result (λ number. number < 10 ^ most) }
{
    if word.len() < least || word.len() > most || !are_digits(word) {
        return None;
    }
    Some(decimal(word))
}

/// Whether each of these characters has a code.
fn have_codes(text: &[u8]) -> bool
    ensures { result ≡ list_all (λ c. is_some (code_of c)) text.now }
{
    text.iter().all(|c| to_ebcdic(char::from(*c)).is_some())
}

/// The codes of those characters that have one.
fn codes_of(alloc: Global, text: &[u8]) -> Result<Vec<u8>, AllocError>
    ensures codes { IfOk result (λ codes. codes.items ≡ filter_map code_of text.now) }
{
    text.iter()
        .filter_map(|c| to_ebcdic(char::from(*c)))
        .collect(alloc)
}

/// The EBCDIC codes of a key's text; None, and never an error, where it has more than 1,920 characters, or one without
/// a code.
///
/// An error comes only where an allocation failed.
#[tactic(auto, unfolding(crate::specs::Words::codes_of_key), using(crate::proofs::WordLemmas::few_codes))]
pub fn codes_of_key(alloc: Global, text: &[u8]) -> Result<Option<Bytes>, AllocError>
    ensures codes { IfOk result (λ codes. codes ≡ codes_of_key text.now) }
    ensures memory { OnErr result (is_some (codes_of_key text.now) ≡ true) }
    ensures bound { IfOk result (λ codes. IfSome codes (λ bytes. length bytes ≤ 1920)) }
{
    if text.len() > MOST_IN_KEY || !have_codes(text) {
        return Ok(None);
    }
    Ok(Some(Bytes::from_vec(codes_of(alloc, text)?)))
}
