//! The cross-reference of a source.
ghost use Rattle.std.specs.Prelude.{◌≡◌, ◌++◌, [], IfOk, OnOk};
ghost use Rattle.std.specs.List.{flat_map};
ghost use Rattle.cx_asm_pass2.specs.Statements.{statements_of};
ghost use Rattle.cx_asm_pass2.specs.Whole.{whole_of};
ghost use Rattle.cx_look_symbols.specs.Placed.{placed_in};
ghost use Rattle.cx_look_symbols.specs.Symbols.{symbols_of};
ghost use Rattle.cx_look_symbols.specs.Texts.{in_order};
ghost use Rattle.cx_look_xref.specs.Given.{lines_given};
ghost use Rattle.cx_look_xref.specs.Literals.{lines_with};
ghost use Rattle.cx_look_xref.specs.References.{lines_using, references_of, stores_of};
ghost use Rattle.cx_asm.specs.Assembly.{last_line};
ghost use Rattle.cx_look_xref.specs.Texts.{literals_from, name_line, usings_from, xref_made, xref_of};
ghost use Rattle.std.specs.Option.{option_map_or};

use crate::given::lines_given;
use crate::literals::literal_lines;
use crate::references::{references_of, stores_of};
use crate::symbols::symbol_lines;
use crate::usings::using_lines;
use cx_asm::{AsmFault, assemble};
use cx_ebcdic::Name8;
use cx_look_lines::Report;
use cx_look_symbols::{PlacedSource, Symbol, in_order, translated_in};
use cx_source::{Source, Text};
use std::alloc::{AllocError, Global};
use std::collections::BTreeMap;

/// The number of a source's last line; 0 where it has none.
fn last_line(source: &Source) -> usize
    ensures { result ≡ last_line source.now }
{
    match source.items.as_slice().last() {
        Some(item) => item.line,
        None => 0,
    }
}

/// A source's symbols in the order of their names.
fn sorted_symbols(
    alloc: Global,
    placed: &PlacedSource<'_>,
) -> Result<BTreeMap<Name8, Symbol>, AllocError>
    ensures { IfOk result (λ sorted. sorted.entries ≡ in_order (symbols_of placed.now).rows) }
{
    let names = placed.names(alloc)?;
    in_order(alloc, &names.symbols)
}

/// Adds the lines of a source's symbols, in the order of their names.
fn symbol_part(report: &mut Report, placed: &PlacedSource<'_>) -> Result<(), AllocError>
    ensures { let line = name_line (lines_using (stores_of placed.now)) (lines_using (references_of placed.now))
        (lines_given placed.now) in
        OnOk result (report.new ≡ report.old ++ flat_map line (in_order (symbols_of placed.now).rows)) }
{
    let alloc = report.alloc();
    let source = placed.source();
    let symbols = sorted_symbols(alloc, placed)?;
    let stores = stores_of(alloc, source)?;
    let references = references_of(alloc, source)?;
    let given = lines_given(alloc, source)?;
    symbol_lines(
        report,
        stores.as_slice(),
        references.as_slice(),
        given.as_slice(),
        &symbols,
    )
}

/// Adds the lines of a source's literals, whose control section has this text, and of its base registers.
fn statement_part(
    report: &mut Report,
    placed: &PlacedSource<'_>,
    section: &[u8],
) -> Result<(), AllocError>
    ensures { let literals = literals_from section.now (lines_with (statements_of placed.now)) 0
        (whole_of placed.now).pools in
        let usings = usings_from (whole_of placed.now) (last_line placed.now) (statements_of placed.now) in
        OnOk result (report.new ≡ report.old ++ literals ++ usings) }
{
    let statements = placed.statements(report.alloc())?;
    let places = placed.places();
    let pools = places.pools.as_slice();
    literal_lines(report, section, statements.as_slice(), pools)?;
    let last = last_line(placed.source());
    using_lines(report, places, last, statements.as_slice())
}

/// The lines of a source, whose control section has this text.
fn xref_made(alloc: Global, placed: &PlacedSource<'_>, section: &[u8]) -> Result<Report, AllocError>
    ensures { IfOk result (λ report. report ≡ xref_made placed.now section.now) }
{
    let mut report = Report::new(alloc);
    symbol_part(&mut report, placed)?;
    statement_part(&mut report, placed, section)?;
    Ok(report)
}

/// The lines of a source.
fn xref_of(alloc: Global, placed: &PlacedSource<'_>) -> Result<Report, AllocError>
    ensures { IfOk result (λ report. report ≡ xref_of placed.now) }
{
    match assemble(alloc, placed.source()) {
        Ok(assembly) => xref_made(alloc, placed, assembly.image().text.as_slice()),
        Err(AsmFault::Memory) => Err(AllocError),
        Err(_) => Ok(Report::new(alloc)),
    }
}

/// The lines of the source that lines make.
pub(crate) fn xref_among(alloc: Global, lines: &[Text]) -> Result<Report, AllocError>
    ensures { IfOk result (λ report. report ≡ option_map_or xref_of (placed_in lines.now) []) }
{
    let source = translated_in(alloc, lines)?;
    match PlacedSource::of(alloc, &source)? {
        Some(placed) => xref_of(alloc, &placed),
        None => Ok(Report::new(alloc)),
    }
}
