//! What is written of symbols.
ghost use Rattle.std.specs.Prelude.{◌≡◌, ◌++◌, OnOk};
ghost use Rattle.std.specs.List.{flat_map};
ghost use Rattle.cx_look_xref.specs.Parts.Uses.{lines_of_name};
ghost use Rattle.cx_look_xref.specs.References.{lines_using};
ghost use Rattle.cx_look_xref.specs.Texts.{name_line};

use crate::given::is_symbol_given;
use crate::lines::used_word;
use crate::references::{Reference, lines_by_name};
use crate::uses::lines_for;
use cx_ebcdic::Name8;
use cx_look_lines::{Report, decimal, written_name};
use cx_look_symbols::Symbol;
use indexmap::IndexMap;
use std::alloc::AllocError;
use std::collections::{BTreeMap, BTreeSet};

/// The lines that store into each name, those that use it, and those that define what is given.
#[derive(Drop)]
struct NameLines<'a> {
    stored: &'a IndexMap<Name8, BTreeSet<usize>>,
    used: &'a IndexMap<Name8, BTreeSet<usize>>,
    given: &'a [usize],
}

impl NameLines<'_> {
    /// Adds the line of a symbol; none of one that is given and unused.
    fn name_line(&self, report: &mut Report, name: Name8, symbol: &Symbol) -> Result<(), AllocError>
        ensures { let line = name_line (lines_of_name self.now.stored.now.entries)
            (lines_of_name self.now.used.now.entries) self.now.given.now in
            OnOk result (report.new ≡ report.old ++ line (name, symbol.now)) }
    {
        let alloc = report.alloc();
        let lines = lines_for(alloc, self.used, &name)?;
        if is_symbol_given(self.given, symbol) && lines.is_empty() {
            return Ok(());
        }
        let storing = lines_for(alloc, self.stored, &name)?;
        let used = used_word(alloc, storing.as_slice(), lines.as_slice())?;
        let name = written_name(alloc, &name.bytes())?;
        let line = decimal(alloc, symbol.line)?;
        report.line(&[b"XREF", &name, b"LINE", &line, &used])
    }

    /// Adds the lines of symbols.
    fn name_lines(
        &self,
        report: &mut Report,
        symbols: &BTreeMap<Name8, Symbol>,
    ) -> Result<(), AllocError>
        ensures { let line = name_line (lines_of_name self.now.stored.now.entries)
            (lines_of_name self.now.used.now.entries) self.now.given.now in
            OnOk result (report.new ≡ report.old ++ flat_map line symbols.now.entries) }
    {
        for (name, symbol) in symbols.iter() {
            self.name_line(report, *name, symbol)?;
        }
        Ok(())
    }
}

/// Adds the lines of symbols, which these references use, and store into, and of which those that these lines define
/// are given.
pub(crate) fn symbol_lines(
    report: &mut Report,
    stores: &[Reference],
    references: &[Reference],
    given: &[usize],
    symbols: &BTreeMap<Name8, Symbol>,
) -> Result<(), AllocError>
    ensures { let line = name_line (lines_using stores.now) (lines_using references.now) given.now in
        OnOk result (report.new ≡ report.old ++ flat_map line symbols.now.entries) }
{
    let stored = lines_by_name(report.alloc(), stores)?;
    let used = lines_by_name(report.alloc(), references)?;
    let lines = NameLines {
        stored: &stored,
        used: &used,
        given,
    };
    lines.name_lines(report, symbols)
}
