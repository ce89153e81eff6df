//! Arguments as they may be written: values as they are, and names in apostrophes.

ghost use Rattle.std.specs.Prelude.{◌≡◌, ◌==◌, ◌||◌, false, slice_index};
ghost use Rattle.std.specs.List.{list_any};
ghost use Rattle.std.specs.Str.{byte};
ghost use Rattle.cx_source.specs.Lines.{is_written};
ghost use Rattle.cx_translate.specs.Names.{
  bare_argument,
  characters_from,
  closes_from,
  is_name_or_place,
  is_name_text,
  is_quoted,
  is_value,
};

use cx_source::{skip_blanks, trim_blanks};

/// An apostrophe.
const APOSTROPHE: u8 = b'\'';

/// An argument without the blanks round it.
#[tactic(auto, unfolding(crate::specs::Names::bare_argument))]
pub(crate) fn bare_argument(text: &[u8]) -> &[u8]
    ensures { result.now ≡ bare_argument text.now }
{
    trim_blanks(skip_blanks(text))
}

/// Whether a text begins with an apostrophe.
fn begins_with_apostrophe(text: &[u8]) -> bool
    ensures { result ≡ (slice_index text.now 0 == byte "'") }
{
    match text {
        [] => false,
        [first, ..] => *first == APOSTROPHE,
    }
}

/// Whether an argument begins with an apostrophe.
#[tactic(auto, unfolding(crate::specs::Names::is_quoted))]
pub(crate) fn is_quoted(text: &[u8]) -> bool
    ensures { result ≡ is_quoted text.now }
{
    begins_with_apostrophe(bare_argument(text))
}

/// Whether the text after an opening apostrophe ends with its last character, and not before.
fn closes(text: &[u8]) -> bool
    ensures { result ≡ closes_from false text.now }
{
    let mut pending = false;
    for c in text {
        if *c == APOSTROPHE {
            pending = !pending;
        } else if pending {
            return false;
        }
    }
    pending
}

/// Whether two of a character stand for one.
fn is_doubled(c: u8) -> bool
    ensures { result ≡ (c == byte "'" || c == byte "&") }
{
    c == APOSTROPHE || c == b'&'
}

/// How many characters a text stands for.
fn characters(text: &[u8]) -> usize
    ensures { result ≡ characters_from 0 text.now }
{
    let mut count = 0;
    let mut held = 0;
    for c in text {
        if is_doubled(*c) && *c == held {
            held = 0;
        } else {
            count += 1;
            held = *c;
        }
    }
    count
}

/// Whether a text is a name of 1 to `most` characters in apostrophes.
#[tactic(auto, unfolding(crate::specs::Names::is_name_text))]
fn is_name_text(text: &[u8], most: u8) -> bool
    ensures { result ≡ is_name_text most text.now }
{
    let (_, after) = text.split_at(text.len().min(1));
    begins_with_apostrophe(text)
        && closes(after)
        && (2..=usize::from(most) + 1).contains(&characters(after))
}

/// Whether any character of a text isn't blank.
fn has_written(text: &[u8]) -> bool
    ensures { result ≡ list_any is_written text.now }
{
    text.iter().any(|c| *c != b' ')
}

/// Whether an argument is a value that is written as it is.
#[tactic(auto, unfolding(crate::specs::Names::is_value))]
pub(crate) fn is_value(text: &[u8]) -> bool
    ensures { result ≡ is_value text.now }
{
    has_written(text) && !is_quoted(text)
}

/// Whether an argument is a name of 1 to `most` characters in apostrophes, or a value that is written as it is.
#[tactic(auto, unfolding(crate::specs::Names::is_name_or_place))]
pub(crate) fn is_name_or_place(text: &[u8], most: u8) -> bool
    ensures { result ≡ is_name_or_place most text.now }
{
    if is_quoted(text) {
        is_name_text(bare_argument(text), most)
    } else {
        has_written(text)
    }
}
