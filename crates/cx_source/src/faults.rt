//! What may be wrong with one line.

ghost use Rattle.std.specs.Prelude.{◌≡◌, ◌≤◌, ◌==◌, ◌&&◌, ◌||◌, IfNone, is_none, length, nat_lt};
ghost use Rattle.std.specs.List.{list_any};
ghost use Rattle.cx_ebcdic.specs.Characters.{code_of};
ghost use Rattle.cx_source.specs.Lines.{columns, entries_of, is_comment, is_symbol_name, is_written};
ghost use Rattle.cx_source.specs.Faults.{source_fault};

use crate::lines::{columns, entries_of, has_written, is_comment, is_symbol_name, text_of};
use crate::source::SourceFault;
use cx_ebcdic::to_ebcdic;

/// How many columns a line may have.
const COLUMNS: usize = 80;

/// How many lines a source may have.
const LINES: usize = 10_000;

/// The column that marks a line as continued.
const MARK: usize = 72;

/// The last column that is blank on a line that continues a statement.
const MARGIN: usize = 15;

/// Whether a line has too many columns, or comes after too many lines.
fn is_too_long(number: usize, line: &[u8]) -> bool
    ensures { result ≡ (nat_lt 80 (length line.now) || nat_lt 10000 number) }
{
    line.len() > COLUMNS || number > LINES
}

/// Whether a character in columns 1 to 72 has no EBCDIC code.
fn has_bad_character(line: &[u8]) -> bool
    ensures { result ≡ list_any (λ c. is_none (code_of c)) (columns 1 72 line.now) }
{
    columns(line, 1, MARK)
        .iter()
        .any(|c| to_ebcdic(char::from(*c)).is_none())
}

/// Whether a line that continues a statement has anything in its margin.
fn has_bad_continuation(continues: bool, line: &[u8]) -> bool
    ensures { result ≡ (continues && list_any is_written (columns 1 15 line.now)) }
{
    continues && has_written(columns(line, 1, MARGIN))
}

/// Whether what begins in column 1 is a name, or nothing begins there.
fn is_well_named(text: &[u8]) -> bool
    ensures { let name = (entries_of text.now).name in
        result ≡ (is_comment text.now || length name == 0 || is_symbol_name name) }
{
    let name = entries_of(text).name;
    is_comment(text) || name.is_empty() || is_symbol_name(name)
}

/// The fault of the line with this number, if it has one.
#[tactic(auto, unfolding(crate::specs::Faults::source_fault))]
pub(crate) fn source_fault(continues: bool, number: usize, line: &[u8]) -> Option<SourceFault>
    ensures fault { result ≡ source_fault continues number line.now }
    ensures early { IfNone result (number ≤ 10000) }
{
    if is_too_long(number, line) {
        return Some(SourceFault::TooLong(number));
    }
    if has_bad_character(line) {
        return Some(SourceFault::BadCharacter(number));
    }
    if has_bad_continuation(continues, line) {
        return Some(SourceFault::BadContinuation(number));
    }
    if !continues && !is_well_named(text_of(line)) {
        return Some(SourceFault::BadName(number));
    }
    None
}
