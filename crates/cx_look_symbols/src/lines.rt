//! The line of the statement whose bytes hold an offset.
ghost use Rattle.std.specs.Prelude.{◌≡◌};
ghost use Rattle.cx_base.specs.Digits.{digits};
ghost use Rattle.cx_look_symbols.specs.Lines.{has_offset, line_at, line_in};

use crate::statements::StatementPlace;
use cx_base::{List, decimal};
use cx_ebcdic::Name8;
use indexmap::IndexMap;

/// Where the bytes of statements are, by the programs that a source defined.
pub type SourcePlaces = IndexMap<Name8, List<StatementPlace>>;

/// Whether one of a statement's bytes is at an offset in the control section. It takes no memory.
pub fn has_offset(place: &StatementPlace, offset: u32) -> bool
    ensures { result ≡ has_offset offset place.now }
{
    place.start <= u128::from(offset) && u128::from(offset) < place.end
}

/// The line of the first statement whose bytes hold an offset.
fn line_at(places: &[StatementPlace], offset: u32) -> Option<usize>
    ensures { result ≡ line_at places.now offset }
{
    let place = places.iter().find(|place| has_offset(place, offset))?;
    Some(place.line)
}

/// The line of an offset in a program; None where no source defined the program, or no statement's bytes hold the
/// offset.
pub(crate) fn line_in(sources: &SourcePlaces, program: Name8, offset: u32) -> Option<usize>
    ensures { result ≡ line_in sources.now.entries program offset }
{
    let places = sources.get(&program)?;
    line_at(places.as_slice(), offset)
}

/// A line's number in five decimal digits, its last ones where it has more. It takes no memory.
#[tactic(auto, using(crate::proofs::LineLemmas::last_five))]
pub fn five_digits(line: usize) -> [u8; 5]
    ensures { result ≡ digits 10 5 line }
{
    decimal::<5>((line % 100_000) as u32)
}
