//! One line of a source.

ghost use Rattle.std.specs.Prelude.{◌≡◌, ◌≤◌, codes, length, position, slice_index};
ghost use Rattle.std.specs.List.{after_first, before_first, list_all, list_any, position_or_len};
ghost use Rattle.std.specs.Str.{bytes_eq};
ghost use Rattle.cx_source.specs.Lines.{columns, entries_of, is_blank, is_comment, is_letter, is_marked, is_symbol_name, is_symbol_name_character, is_written, skip_blanks, text_of, trim_blanks};

/// A blank.
pub(crate) const BLANK: u8 = b' ';

/// The column that marks a line as continued.
const MARK: usize = 72;

/// How many characters a name may have.
const NAME_MAX: usize = 8;

/// A text without the blanks (space characters) at its end.
pub fn trim_blanks(text: &[u8]) -> &[u8]
    ensures { result.now ≡ trim_blanks text.now }
{
    let mut len = text.len();
    while len > 0 && text[len - 1] == BLANK {
        len -= 1;
    }
    &text[..len]
}

/// How many characters precede the first that isn't blank.
#[tactic(auto, using(crate::proofs::LineLemmas::first_or_length))]
fn blanks_len(text: &[u8]) -> usize
    ensures value { result ≡ position_or_len is_written text.now }
    ensures bound { result ≤ length text.now }
{
    first_written(text).unwrap_or(text.len())
}

/// The place of the first character that isn't blank.
fn first_written(text: &[u8]) -> Option<usize>
    ensures { result ≡ position is_written text.now }
{
    text.iter().position(|c| *c != BLANK)
}

/// How many characters precede the first blank.
#[tactic(auto, using(crate::proofs::LineLemmas::first_or_length))]
fn word_len(text: &[u8]) -> usize
    ensures value { result ≡ position_or_len is_blank text.now }
    ensures bound { result ≤ length text.now }
{
    first_blank(text).unwrap_or(text.len())
}

/// The place of the first blank.
fn first_blank(text: &[u8]) -> Option<usize>
    ensures { result ≡ position is_blank text.now }
{
    text.iter().position(|c| *c == BLANK)
}

/// A text without the blanks (space characters) at its beginning.
pub fn skip_blanks(text: &[u8]) -> &[u8]
    ensures { result.now ≡ skip_blanks text.now }
{
    let (_, rest) = text.split_at(blanks_len(text));
    rest
}

/// The columns from `first` to `last`, counted from 1, as far as a text goes.
pub(crate) fn columns(text: &[u8], first: usize, last: usize) -> &[u8]
    ensures { result.now ≡ columns first last text.now }
{
    let (front, _) = text.split_at(text.len().min(last));
    let (_, columns) = front.split_at(front.len().min(first.saturating_sub(1)));
    columns
}

/// Columns 1 to 72 of a line, counted from 1, without the blanks at their end; a shorter line has fewer.
#[tactic(auto, unfolding(crate::specs::Lines::text_of))]
pub fn text_of(line: &[u8]) -> &[u8]
    ensures { result.now ≡ text_of line.now }
{
    trim_blanks(columns(line, 1, MARK))
}

/// Whether the continuation column isn't blank.
#[tactic(auto, unfolding(crate::specs::Lines::is_marked))]
pub(crate) fn is_marked(text: &[u8]) -> bool
    ensures { result ≡ is_marked text.now }
{
    has_written(columns(text, MARK, MARK))
}

/// Whether any character of a text isn't blank.
pub(crate) fn has_written(text: &[u8]) -> bool
    ensures { result ≡ list_any is_written text.now }
{
    text.iter().any(|c| *c != BLANK)
}

/// Whether a text is a comment.
#[tactic(auto, unfolding(crate::specs::Lines::is_comment))]
pub(crate) fn is_comment(text: &[u8]) -> bool
    ensures { result ≡ is_comment text.now }
{
    match text {
        [] => true,
        [first, ..] => *first == b'*',
    }
}

/// Whether a character (ASCII) is a letter: A to Z, `@`, `#` or `$` (GC33-4010, "Character Set").
#[tactic(auto, unfolding(crate::specs::Lines::is_letter))]
pub fn is_letter(c: u8) -> bool
    ensures { result ≡ is_letter c }
{
    matches!(c, b'A'..=b'Z' | b'@' | b'#' | b'$')
}

/// Whether a character (ASCII) may be in a name: a letter, as `is_letter` has it, or a digit (GC33-4010, "Symbols").
#[tactic(auto, unfolding(crate::specs::Lines::is_symbol_name_character))]
pub fn is_symbol_name_character(c: u8) -> bool
    ensures { result ≡ is_symbol_name_character c }
{
    is_letter(c) || matches!(c, b'0'..=b'9')
}

/// Whether a text begins with a letter; an empty one doesn't.
#[tactic(auto, unfolding(crate::specs::Lines::is_letter))]
pub fn begins_with_letter(text: &[u8]) -> bool
    ensures { result ≡ is_letter (slice_index text.now 0) }
{
    match text {
        [] => false,
        [first, ..] => is_letter(*first),
    }
}

/// Whether a text is a name: 1 to 8 letters and digits, the first a letter (GC33-4010, "Symbols").
#[tactic(auto, unfolding(crate::specs::Lines::is_symbol_name))]
pub fn is_symbol_name(text: &[u8]) -> bool
    ensures { result ≡ is_symbol_name text.now }
{
    begins_with_letter(text) && has_name_characters(text) && text.len() <= NAME_MAX
}

/// Whether each character of a text may be in a name.
fn has_name_characters(text: &[u8]) -> bool
    ensures { result ≡ list_all is_symbol_name_character text.now }
{
    text.iter().all(|c| is_symbol_name_character(*c))
}

/// The entries of a statement's first line.
#[derive(Drop)]
pub(crate) struct Entries<'a> {
    /// The name, or nothing where column 1 is blank.
    pub(crate) name: &'a [u8],
    /// The operation, or nothing where there is none.
    pub(crate) operation: &'a [u8],
    /// What follows the blank after the operation, to column 71.
    pub(crate) after: &'a [u8],
}

/// What precedes a text's first blank, and what follows it.
fn split_word(text: &[u8]) -> (&[u8], &[u8])
    ensures word { result.0.now ≡ before_first is_blank text.now }
    ensures after { result.1.now ≡ after_first is_blank text.now }
{
    let len = word_len(text);
    let (word, _) = text.split_at(len);
    let (_, after) = text.split_at(text.len().min(len.saturating_add(1)));
    (word, after)
}

/// The entries of a statement's first line.
#[tactic(auto, unfolding(crate::specs::Lines::entries_of))]
pub(crate) fn entries_of(text: &[u8]) -> Entries<'_>
    ensures name { result.name.now ≡ (entries_of text.now).name }
    ensures operation { result.operation.now ≡ (entries_of text.now).operation }
    ensures after { result.after.now ≡ (entries_of text.now).after }
{
    let (name, rest) = split_word(columns(text, 1, MARK - 1));
    let (operation, after) = split_word(skip_blanks(rest));
    Entries {
        name,
        operation,
        after,
    }
}

/// Whether a statement's first line is END's.
pub(crate) fn is_end(text: &[u8]) -> bool
    ensures { result ≡ bytes_eq (entries_of text.now).operation (codes "END") }
{
    entries_of(text).operation == b"END".as_slice()
}
