//! The line of the script that a fault is of, as it is reported.

ghost use Rattle.std.specs.Prelude.{◌≡◌, ◌-◌, Some, slice_get};
ghost use Rattle.std.specs.Option.{option_map};
ghost use Rattle.cx_script_io.specs.Lines.{lines_met};
ghost use Rattle.cx_script_io.specs.declared.input.Ending.TheVariants.{AtEnd};
ghost use Rattle.cx_script_blocks.specs.Shown.{printable_byte};
ghost use Rattle.cx_script_main.specs.Shown.{faulty_line, faulty_number, line_at, line_of_fault, shown_line};

use crate::program::Run;
use cx_script::{Ending, RunFault};
use cx_script_blocks::printable_byte;
use cx_script_io::{in_front, last_line, split_line, strip_carriage_return};
use std::fmt::{Display, Formatter};

/// The most bytes of a line that are shown: a longer one is a bad line by its length alone.
const MOST_SHOWN: usize = 4_096;

/// The number of the line that a fault is of.
fn line_of_fault(fault: RunFault) -> Option<usize>
    ensures { result ≡ line_of_fault fault }
{
    match fault {
        RunFault::BadLine(line) | RunFault::BadLook(line) | RunFault::Source(line, _) => Some(line),
        _ => None,
    }
}

/// The first line of some bytes.
#[tactic(auto, using(crate::proofs::LineLemmas::line_first, crate::proofs::LineLemmas::line_last))]
fn first_line(bytes: &[u8]) -> Option<&[u8]>
    ensures { option_map (λ it. it.now) result ≡ slice_get (lines_met AtEnd bytes.now) 0 }
{
    match split_line(bytes) {
        Some((line, _rest)) => Some(strip_carriage_return(line)),
        None => last_line(bytes, Ending::AtEnd),
    }
}

/// The line with this number of the bytes that were read.
#[tactic(auto, using(crate::proofs::LineLemmas::line_after, crate::proofs::LineLemmas::line_none))]
fn line_at(bytes: &[u8], number: usize) -> Option<&[u8]>
    ensures { option_map (λ it. it.now) result ≡ line_at bytes.now number }
{
    let mut rest = bytes;
    'lines: for _before in 1..number {
        let (_line, following) = split_line(rest)?;
        rest = following;
    }
    first_line(rest)
}

impl Run {
    /// The number of the line that its fault is of.
    fn faulty_number(&self) -> Option<usize>
        ensures { result ≡ faulty_number self.now }
    {
        match self.answer {
            Ok(_) => None,
            Err(fault) => line_of_fault(fault),
        }
    }

    /// The line that its fault is of, where the bytes that were read are kept.
    pub(crate) fn faulty_line(&self) -> Option<&[u8]>
        ensures { option_map (λ it. it.now) result ≡ faulty_line self.now }
    {
        let number = self.faulty_number()?;
        match &self.read {
            Some(bytes) => line_at(bytes.as_slice(), number),
            None => None,
        }
    }
}

/// The character that shows a byte of a line.
fn shown_char(c: u8) -> char
    ensures { result ≡ printable_byte c }
{
    char::from(printable_byte(c))
}

/// A line of a script that is shown.
#[derive(Drop)]
pub(crate) struct ShownLine<'a> {
    pub(crate) line: &'a [u8],
}

impl Display for ShownLine<'_> {
    ghost output = { λ it. Some (shown_line it.line.now) };

    fn fmt<W: std::fmt::Write>(&self, f: &mut Formatter<W>) -> Result<(), std::fmt::Error> {
        let shown = in_front(self.line, MOST_SHOWN.min(self.line.len()));
        'bytes: for c in shown {
            f.write_char(shown_char(*c))?;
        }
        Ok(())
    }
}
