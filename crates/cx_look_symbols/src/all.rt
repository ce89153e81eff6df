//! All symbols of a source, in the order of their names.
ghost use Rattle.std.specs.Prelude.{◌≡◌, ◌++◌, [], IfOk, OnOk};
ghost use Rattle.std.specs.List.{flat_map};
ghost use Rattle.cx_look_symbols.specs.Symbols.{named_in};
ghost use Rattle.cx_look_symbols.specs.Texts.{in_order, symbol_line};
ghost use Rattle.std.specs.Option.{option_map_or};

use crate::rows::Symbol;
use crate::symbols::names_in;
use crate::texts::symbol_line;
use cx_ebcdic::Name8;
use cx_load::Loaded;
use cx_look_lines::Report;
use cx_source::Text;
use indexmap::IndexMap;
use std::alloc::{AllocError, Global};
use std::collections::BTreeMap;

/// The symbols of a source in the order of their names, letters before digits (as EBCDIC has them).
///
/// An error comes only where memory for them was refused.
pub fn in_order(
    alloc: Global,
    symbols: &IndexMap<Name8, Symbol>,
) -> Result<BTreeMap<Name8, Symbol>, AllocError>
    ensures { IfOk result (λ sorted. sorted.entries ≡ in_order symbols.now.entries) }
{
    let mut sorted = BTreeMap::new(alloc);
    for (name, symbol) in symbols.iter() {
        sorted.insert(*name, *symbol)?;
    }
    Ok(sorted)
}

/// Adds the lines of symbols.
fn symbol_lines(
    report: &mut Report,
    control: &Option<Name8>,
    program: &Option<Loaded>,
    symbols: &BTreeMap<Name8, Symbol>,
) -> Result<(), AllocError>
    ensures { let more = flat_map (symbol_line control.now program.now) symbols.now.entries in
        OnOk result (report.new ≡ report.old ++ more) }
{
    for (name, symbol) in symbols.iter() {
        symbol_line(report, control, program, *name, symbol)?;
    }
    Ok(())
}

/// The lines of all symbols of lines.
pub(crate) fn symbols_among(
    alloc: Global,
    program: Option<Loaded>,
    lines: &[Text],
) -> Result<Report, AllocError>
    ensures { IfOk result (λ report. report ≡ option_map_or
        (λ it. flat_map (symbol_line it.control program) (in_order it.rows)) (named_in lines.now) []) }
{
    let mut report = Report::new(alloc);
    let Some(names) = names_in(alloc, lines)? else {
        return Ok(report);
    };
    let symbols = in_order(alloc, &names.symbols)?;
    symbol_lines(&mut report, &names.control, &program, &symbols)?;
    Ok(report)
}
