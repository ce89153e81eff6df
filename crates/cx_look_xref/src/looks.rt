//! A look at the cross-reference of a program's source.
ghost use Rattle.std.specs.Prelude.{◌≡◌, IfOk};
ghost use Rattle.cx_look_xref.specs.Texts.{xref_text};

use crate::all::xref_among;
use cx_ebcdic::Name8;
use cx_look_lines::{Report, joined, written_name};
use cx_source::Text;
use std::alloc::{AllocError, Global};

/// Looks at the cross-reference of a program, whose source has these lines: a line for each symbol, in the order of
/// their names, letters before digits, with the number of the line that defines it, from 1, and the numbers of the
/// lines whose statements use it, ascending, those made of an EXEC statement with that one's; then a line for each
/// literal, and for each base register of each USING. A symbol of DFHREGS, of COPY DFHAID or of the EXEC interface
/// block has a line only where it is used. NONE where the lines are no source without a fault, or nothing is to be
/// written.
///
/// An error comes only where memory for the report was refused.
#[tactic(auto, unfolding(crate::specs::Texts::xref_text))]
pub fn xref_text(alloc: Global, program: Name8, lines: &[Text]) -> Result<Report, AllocError>
    ensures { IfOk result (λ report. report ≡ xref_text program lines.now) }
{
    let report = xref_among(alloc, lines)?;
    let word = joined(alloc, b"XREF ", &written_name(alloc, &program.bytes())?)?;
    report.or_none(&word)
}
