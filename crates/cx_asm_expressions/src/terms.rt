//! The terms of an expression.

ghost use Rattle.std.specs.Prelude.{◌≡◌, ◌&&◌, ◌==◌, if◌then◌else◌, IfOk, MatchOption, map};
ghost use Rattle.std.specs.Str.{byte};
ghost use Rattle.cx_ebcdic.specs.Lookup.{each_some};
ghost use Rattle.cx_asm_expressions.specs.Terms.{is_short_number, is_short_text, is_sign, part_of, parts_of, quoted_term, read_term, self_defining, term_of, terms_of};

use crate::digits::is_number;
use crate::texts::{APOSTROPHE, character_count, closed, has_codes, is_paired};
use cx_source::{is_symbol_name, outside};
use std::alloc::{AllocError, Global};
use std::marker::Model;

/// The sign before a term of an expression.
#[derive(Clone, Copy, PartialEq, Eq)]
pub enum Sign {
    /// The term is added.
    Plus,
    /// The term is subtracted.
    Minus,
}

/// What a term is (GC33-4010, "Terms").
#[derive(Clone, Copy, PartialEq, Eq)]
pub enum TermKind {
    /// A symbol: its value.
    Symbol,
    /// A decimal self-defining term, whose value is at most 4,294,967,295.
    Decimal,
    /// A hexadecimal one, X'..', of 1 to 8 digits.
    Hexadecimal,
    /// A binary one, B'..', of 1 to 32 digits.
    Binary,
    /// A character one, C'..', of 1 to 4 characters, by their codes in EBCDIC.
    Characters,
    /// `*`: where the location counter is.
    Here,
    /// L' and a symbol: the symbol's length attribute.
    LengthOf,
}

/// What is between two signs of an expression.
#[derive(Drop)]
pub struct Part<'a> {
    sign: Sign,
    text: &'a [u8],
}

impl<'a> Model for Part<'a> {
    ghost use Rattle.cx_asm_expressions.specs.Terms.{Part as PartValue, part_of};

    ghost Value = { PartValue };

    ghost view = { λ part. part_of part.sign part.text.now };
}

/// A term of an expression, with its sign.
#[derive(Drop)]
pub struct Term<'a> {
    sign: Sign,
    kind: TermKind,
    text: &'a [u8],
}

impl<'a> Model for Term<'a> {
    ghost use Rattle.cx_asm_expressions.specs.Terms.{Term as TermValue, term_of};

    ghost Value = { TermValue };

    ghost view = { λ term. term_of term.sign term.kind term.text.now };
}

/// Whether a character is a sign.
pub(crate) fn is_sign(c: u8) -> bool
    ensures { result ≡ is_sign c }
{
    c == b'+' || c == b'-'
}

/// The sign that a character is.
fn sign_of(c: u8) -> Sign
    ensures { result ≡ (if c == byte "-" then Sign.Minus else Sign.Plus) }
{
    if c == b'-' { Sign::Minus } else { Sign::Plus }
}

/// Whether a character cuts an expression: a sign that lies outside apostrophes.
fn cuts(out: bool, c: u8) -> bool
    ensures { result ≡ (out && is_sign c) }
{
    out && is_sign(c)
}

/// The parts of an expression, cut at the signs that lie outside apostrophes.
#[tactic(auto, using(crate::proofs::TermLemmas::outside_length))]
fn parts_of(alloc: Global, text: &[u8]) -> Result<Vec<Part<'_>>, AllocError>
    ensures { IfOk result (λ found. found.items ≡ parts_of text.now) }
{
    let outs = outside(alloc, text)?;
    let mut found = Vec::new(alloc);
    let mut sign = Sign::Plus;
    let mut start = 0;
    for (i, c) in text.iter().enumerate() {
        if cuts(outs[i], *c) {
            found.push(Part {
                sign,
                text: &text[start..i],
            })?;
            sign = sign_of(*c);
            start = i + 1;
        }
    }
    found.push(Part {
        sign,
        text: &text[start..],
    })?;
    Ok(found)
}

/// Whether a text is 1 to `most` digits of a base.
fn is_short_number(base: u8, most: usize, body: &[u8]) -> bool
    ensures { result ≡ is_short_number base most body.now }
{
    is_number(body, base) && body.len() <= most
}

/// Whether a text is 1 to 4 characters with codes.
fn is_short_text(body: &[u8]) -> bool
    ensures { result ≡ is_short_text body.now }
{
    is_paired(body) && has_codes(body) && !body.is_empty() && character_count(body) <= 4
}

impl<'a> Term<'a> {
    /// A term.
    fn new(sign: Sign, kind: TermKind, text: &'a [u8]) -> Term<'a>
        ensures { result ≡ term_of sign kind text.now }
    {
        Term { sign, kind, text }
    }

    /// The sign before it; of the first term it is a plus.
    pub fn sign(&self) -> Sign
        ensures { result ≡ self.now.sign }
    {
        self.sign
    }

    /// Which kind of term it is, which says how its text is read.
    pub fn kind(&self) -> TermKind
        ensures { result ≡ self.now.kind }
    {
        self.kind
    }

    /// The symbol, the digits or the characters that it is written with, without a prefix such as `X'` or `L'` and
    /// without the apostrophes round them; empty of `*`.
    pub fn text(&self) -> &[u8]
        ensures { result.now ≡ self.now.text }
    {
        self.text
    }

    /// X'..', B'..' and C'..', of at most 4 bytes.
    fn self_defining(sign: Sign, letter: u8, body: &'a [u8]) -> Option<Term<'a>>
        ensures { result ≡ self_defining sign letter body.now }
    {
        if letter == b'X' && is_short_number(16, 8, body) {
            Some(Term::new(sign, TermKind::Hexadecimal, body))
        } else if letter == b'B' && is_short_number(2, 32, body) {
            Some(Term::new(sign, TermKind::Binary, body))
        } else if letter == b'C' && is_short_text(body) {
            Some(Term::new(sign, TermKind::Characters, body))
        } else {
            None
        }
    }

    /// What a letter and an apostrophe begin.
    fn quoted(sign: Sign, letter: u8, after: &'a [u8]) -> Option<Term<'a>>
        ensures { result ≡ quoted_term sign letter after.now }
    {
        if letter == b'L' {
            if is_symbol_name(after) {
                return Some(Term::new(sign, TermKind::LengthOf, after));
            }
            return None;
        }
        let body = closed(after)?;
        Term::self_defining(sign, letter, body)
    }

    /// The term that a part writes, if it writes one.
    #[tactic(auto, unfolding(crate::specs::Terms::read_term))]
    fn read(part: &Part<'a>) -> Option<Term<'a>>
        ensures { result ≡ read_term part.now }
    {
        let text = part.text;
        if text.len() > 1 && text[1] == APOSTROPHE {
            let (_, after) = text.split_at(2);
            return Term::quoted(part.sign, text[0], after);
        }
        if text.len() == 1 && text[0] == b'*' {
            let (_, nothing) = text.split_at(1);
            return Some(Term::new(part.sign, TermKind::Here, nothing));
        }
        if is_symbol_name(text) {
            Some(Term::new(part.sign, TermKind::Symbol, text))
        } else if is_number(text, 10) {
            Some(Term::new(part.sign, TermKind::Decimal, text))
        } else {
            None
        }
    }
}

/// The terms of an expression, or None where a part of it is no term: sums and differences of symbols, decimals, X'..',
/// B'..' and C'..' of at most 4 bytes, `*`, and L' before a symbol (GC33-4010, "Terms"). No sign precedes the first.
///
/// An error comes only where an allocation failed.
#[tactic(auto, unfolding(crate::specs::Terms::terms_of))]
pub fn terms_of(alloc: Global, text: &[u8]) -> Result<Option<Vec<Term<'_>>>, AllocError>
    ensures { let due = terms_of text.now in
        IfOk result (λ found. MatchOption found (due ≡ None) (λ terms. due ≡ Some terms.items)) }
{
    let parts = parts_of(alloc, text)?;
    read_terms(alloc, parts.as_slice())
}

/// The terms that parts write, or None where one writes none.
#[tactic(auto, using(crate::proofs::TermLemmas::some_more))]
fn read_terms<'a>(alloc: Global, parts: &[Part<'a>]) -> Result<Option<Vec<Term<'a>>>, AllocError>
    ensures { IfOk result (λ found. MatchOption found (each_some (map read_term parts.now) ≡ None)
        (λ terms. each_some (map read_term parts.now) ≡ Some terms.items)) }
{
    let mut terms = Vec::new(alloc);
    for part in parts {
        let Some(term) = Term::read(part) else {
            return Ok(None);
        };
        terms.push(term)?;
    }
    Ok(Some(terms))
}
