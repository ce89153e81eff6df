//! Sets of alternatives: the texts that a text with sets stands for.
ghost use Rattle.std.specs.Prelude.{◌≡◌, ◌+◌, ◌*◌, ◌<◌, ◌≤◌, ◌==◌, ◌∷◌, [], length, position, slice_index_or};
ghost use Rattle.cx_look.specs.Parts.{IsPut, few, texts_behind};
ghost use Rattle.cx_look.specs.Sets.{alternative_texts, character_texts, piece_texts, set_texts, texts_meant};

use arrayvec::ArrayVec;

/// The most texts that a text with sets stands for.
pub(crate) const MOST_TEXTS: usize = 10_000;

/// The most bytes of a line.
pub(crate) const MOST_IN_LINE: usize = 4_096;

/// How many texts a character of an alternative stands for.
fn count_of_character(c: u8) -> usize
    ensures { result ≡ length (character_texts c) }
{
    if c == b'#' { 10 } else { 1 }
}

/// A product, counted up to 10,001.
#[tactic(auto, unfolding(crate::specs::Parts::few))]
fn times(count: usize, other: usize) -> usize
    ensures { result ≡ few (count * other) }
{
    count.saturating_mul(other).min(MOST_TEXTS + 1)
}

/// A sum, counted up to 10,001.
#[tactic(auto, unfolding(crate::specs::Parts::few))]
pub(crate) fn plus(count: usize, other: usize) -> usize
    ensures { result ≡ few (count + other) }
{
    count.saturating_add(other).min(MOST_TEXTS + 1)
}

/// The first place of a character.
fn place_of(text: &[u8], character: u8) -> Option<usize>
    ensures { result ≡ position (λ c. c == character) text.now }
{
    text.iter().position(|c| *c == character)
}

/// How many texts an alternative stands for, counted up to 10,001.
fn count_of_alternative(text: &[u8]) -> usize
    ensures { result ≡ few (length (alternative_texts text.now)) }
{
    text.iter()
        .fold(1, |count, c| times(count, count_of_character(*c)))
}

/// How many texts a set stands for, counted up to 10,001.
fn count_of_set(inside: &[u8]) -> usize
    ensures { result ≡ few (length (set_texts inside.now)) }
{
    inside.split(|c| *c == b'|').fold(0, |count, alternative| {
        plus(count, count_of_alternative(alternative))
    })
}

/// How many texts a piece behind a `{` stands for, counted up to 10,001.
fn count_of_piece(piece: &[u8]) -> usize
    ensures { result ≡ few (length (piece_texts piece.now)) }
{
    match place_of(piece, b'}') {
        Some(place) => count_of_set(piece.split_at(place).0),
        None => 0,
    }
}

/// How many texts the pieces behind a text's first `{` stand for, counted up to 10,001.
fn count_behind(text: &[u8]) -> usize
    ensures { result ≡ few (length (texts_behind text.now)) }
{
    text.split(|c| *c == b'{')
        .fold(1, |count, piece| times(count, count_of_piece(piece)))
}

/// How many texts a text with sets stands for: at most 10,000.
pub(crate) fn count_of(text: &[u8]) -> usize
    ensures value { result ≡ length (texts_meant text.now) }
    ensures most { result ≤ 10000 }
{
    let Some(place) = place_of(text, b'{') else {
        return 1;
    };
    let count = count_behind(text.split_at(place + 1).1);
    if count > MOST_TEXTS { 0 } else { count }
}

/// Puts a text behind a line; false where the line has no room for it.
pub(crate) fn put(line: &mut ArrayVec<u8, MOST_IN_LINE>, text: &[u8]) -> bool
    ensures { IsPut line.old.items text.now result line.new.items }
{
    line.try_extend_from_slice(text).is_ok()
}

/// The character of text `number` that a character of an alternative stands for.
fn character_of(c: u8, number: usize) -> u8
    requires { number < length (character_texts c) }
    ensures { slice_index_or (character_texts c) number [] ≡ result ∷ [] }
{
    if c == b'#' { b'0' + number as u8 } else { c }
}

/// Puts a text of an alternative behind a line, by its number from 0 among the `count` that this stands for; false
/// where the line has no room for it.
fn put_alternative(
    line: &mut ArrayVec<u8, MOST_IN_LINE>,
    text: &[u8],
    number: usize,
    count: usize,
) -> bool
    requires count { count ≡ length (alternative_texts text.now) }
    requires number { number < count }
    ensures { IsPut line.old.items (slice_index_or (alternative_texts text.now) number []) result line.new.items }
{
    let mut number = number;
    let mut count = count;
    for c in text {
        count /= count_of_character(*c);
        if line.is_full() {
            return false;
        }
        line.push(character_of(*c, number / count));
        number %= count;
    }
    true
}

/// Puts a text of a set behind a line, by its number from 0; false where the line has no room for it.
fn put_set(line: &mut ArrayVec<u8, MOST_IN_LINE>, inside: &[u8], number: usize) -> bool
    requires few { length (set_texts inside.now) ≤ 10000 }
    requires number { number < length (set_texts inside.now) }
    ensures { IsPut line.old.items (slice_index_or (set_texts inside.now) number []) result line.new.items }
{
    let Some(place) = place_of(inside, b'|') else {
        return put_alternative(line, inside, number, count_of_alternative(inside));
    };
    let first = inside.split_at(place).0;
    let count = count_of_alternative(first);
    if number < count {
        put_alternative(line, first, number, count)
    } else {
        put_set(line, inside.split_at(place + 1).1, number - count)
    }
}

/// Puts a text of a piece behind a line, by its number from 0; false where the line has no room for it.
fn put_piece(line: &mut ArrayVec<u8, MOST_IN_LINE>, piece: &[u8], number: usize) -> bool
    requires few { length (piece_texts piece.now) ≤ 10000 }
    requires number { number < length (piece_texts piece.now) }
    ensures { IsPut line.old.items (slice_index_or (piece_texts piece.now) number []) result line.new.items }
{
    let Some(place) = place_of(piece, b'}') else {
        return false;
    };
    if !put_set(line, piece.split_at(place).0, number) {
        return false;
    }
    put(line, piece.split_at(place + 1).1)
}

/// Puts a text of what stands behind a text's first `{` behind a line, by its number from 0 among the `count` that
/// this stands for; false where the line has no room for it.
fn put_behind(
    line: &mut ArrayVec<u8, MOST_IN_LINE>,
    text: &[u8],
    number: usize,
    count: usize,
) -> bool
    requires count { count ≡ length (texts_behind text.now) }
    requires few { count ≤ 10000 }
    requires number { number < count }
    ensures { IsPut line.old.items (slice_index_or (texts_behind text.now) number []) result line.new.items }
{
    let Some(place) = place_of(text, b'{') else {
        return put_piece(line, text, number);
    };
    let piece = text.split_at(place).0;
    let count = count / count_of_piece(piece);
    if !put_piece(line, piece, number / count) {
        return false;
    }
    put_behind(line, text.split_at(place + 1).1, number % count, count)
}

/// Puts a text that a text with sets stands for behind a line, by its number from 0; false where the line has no room
/// for it.
pub(crate) fn put_text(line: &mut ArrayVec<u8, MOST_IN_LINE>, text: &[u8], number: usize) -> bool
    requires { number < length (texts_meant text.now) }
    ensures { IsPut line.old.items (slice_index_or (texts_meant text.now) number []) result line.new.items }
{
    let Some(place) = place_of(text, b'{') else {
        return put(line, text);
    };
    if !put(line, text.split_at(place).0) {
        return false;
    }
    let behind = text.split_at(place + 1).1;
    put_behind(line, behind, number, count_behind(behind))
}
