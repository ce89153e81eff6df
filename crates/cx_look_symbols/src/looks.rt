//! Looks at the names of a program's source.
ghost use Rattle.std.specs.Prelude.{◌≡◌, ◌++◌, IfOk, OnOk, None, Some};
ghost use Rattle.cx_region.specs.Tables.{program_of};
ghost use Rattle.cx_look_symbols.specs.Texts.{symbol_found, symbol_text, symbols_text};
ghost use Rattle.std.specs.Map.{lookup};
ghost use Rattle.cx_asm_expressions.specs.Names.{is_same};
ghost use Rattle.cx_look_symbols.specs.Names.{symbols_named};

use crate::all::symbols_among;
use crate::symbols::{Names, names_in};
use crate::texts::symbol_line;
use cx_ebcdic::Name8;
use cx_load::Loaded;
use cx_look_lines::{Report, joined, written_name};
use cx_region::Region;
use cx_source::Text;
use cx_storage::Store;
use std::alloc::{AllocError, Global};

/// A program of a region.
fn program_of<S: Store + Drop>(region: &Region<S>, name: Name8) -> Option<Loaded>
    ensures { result ≡ program_of region.now name }
{
    region.shared().programs.get(&name).copied()
}

/// Adds the line of a name that is no symbol.
fn absent_symbol(report: &mut Report, name: Name8) -> Result<(), AllocError>
    ensures { OnOk result (report.new ≡ report.old ++ symbol_found None None name None) }
{
    let name = written_name(report.alloc(), &name.bytes())?;
    report.line(&[b"SYMBOL", &name, b"NONE"])
}

/// Adds the line of a symbol among the names of a source.
fn symbol_among(
    report: &mut Report,
    program: Option<Loaded>,
    name: Name8,
    names: &Names,
) -> Result<(), AllocError>
    ensures { let found = lookup (is_same name) names.now.symbols.entries in
        OnOk result (report.new ≡ report.old ++ symbol_found names.now.control program name found) }
{
    let Some(symbol) = names.symbols.get(&name) else {
        return absent_symbol(report, name);
    };
    symbol_line(report, &names.control, &program, name, symbol)
}

/// Looks at a symbol of a program, whose source has these lines: a line with its value, its section, its length
/// attribute, the number of the line that defines it, from 1, and where it is in the program; NONE where there is no
/// such symbol, or the lines are no source without a fault.
///
/// An error comes only where memory for the report was refused.
#[tactic(auto, unfolding(crate::specs::Texts::symbol_text))]
pub fn symbol_text<S: Store + Drop>(
    alloc: Global,
    region: &Region<S>,
    program: Name8,
    lines: &[Text],
    name: Name8,
) -> Result<Report, AllocError>
    ensures { IfOk result (λ report. report ≡ symbol_text (program_of region.now program) lines.now name) }
{
    let mut report = Report::new(alloc);
    let Some(names) = names_in(alloc, lines)? else {
        absent_symbol(&mut report, name)?;
        return Ok(report);
    };
    symbol_among(&mut report, program_of(region, program), name, &names)?;
    Ok(report)
}

/// Looks at all symbols of a program, whose source has these lines: a line each, as `symbol_text` has it, in the order
/// of their names, letters before digits; NONE where there is no symbol, or the lines are no source without a fault.
///
/// An error comes only where memory for the report was refused.
#[tactic(auto, unfolding(crate::specs::Texts::symbols_text))]
pub fn symbols_text<S: Store + Drop>(
    alloc: Global,
    region: &Region<S>,
    program: Name8,
    lines: &[Text],
) -> Result<Report, AllocError>
    ensures { IfOk result (λ report. report ≡ symbols_text (program_of region.now program) program lines.now) }
{
    let report = symbols_among(alloc, program_of(region, program), lines)?;
    let word = joined(alloc, b"SYMBOLS ", &written_name(alloc, &program.bytes())?)?;
    report.or_none(&word)
}
