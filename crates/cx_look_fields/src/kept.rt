//! The fields of a working storage that was kept.
ghost use Rattle.std.specs.Prelude.{◌≡◌, ◌≤◌, ◌++◌, [], IfOk, OnOk, length};
ghost use Rattle.std.specs.List.{flat_map};
ghost use Rattle.cx_look_symbols.specs.Symbols.{symbols_of};
ghost use Rattle.cx_look_fields.specs.FieldTexts.{field_bytes_word};
ghost use Rattle.cx_look_fields.specs.KeptFields.{first_bytes, kept_fields, kept_line, kept_row};
ghost use Rattle.cx_look_fields.specs.Readings.{readings_of};

use crate::field_texts::{count_of, field_words, word_of};
use crate::fields::Field;
use crate::{NamedReading, Reading, reading_named, readings_of};
use cx_asm_expressions::{Value, symbol_name};
use cx_ebcdic::{Name4, Name8};
use cx_look_lines::{Report, bytes_from};
use cx_look_symbols::{Names, PlacedSource, Symbol, offset_up_to, translated_in};
use cx_source::Text;
use cx_storage::address_after;
use std::alloc::{AllocError, Global};

/// The first bytes in hexadecimal digits and in characters, and the number that they are; hyphens where one of them
/// isn't there.
fn first_word(
    alloc: Global,
    bytes: &[u8],
    count: usize,
    reading: Option<Reading>,
) -> Result<Vec<u8>, AllocError>
    ensures { IfOk result (λ word. word.items ≡ field_bytes_word reading (first_bytes count bytes.now)) }
{
    if count > bytes.len() {
        return b"--".to_vec(alloc);
    }
    word_of(alloc, bytes.split_at(count).0, reading)
}

/// What was kept of a working storage.
#[derive(Drop)]
struct KeptStorage<'a> {
    /// Of which terminal's task it was.
    term: Name4,
    /// The address of its first byte.
    at: u32,
    bytes: &'a [u8],
    /// How the fields of its program's source are read.
    readings: &'a [NamedReading],
}

impl<'a> KeptStorage<'a> {
    /// Adds the line of a field by its offset in the bytes that were kept.
    fn field_line(
        &self,
        report: &mut Report,
        name: Name8,
        value: &Value,
        offset: u32,
    ) -> Result<(), AllocError>
        ensures { let line = kept_line self.now.term self.now.readings.now self.now.at self.now.bytes.now in
            OnOk result (report.new ≡ report.old ++ line name value.now offset) }
    {
        let alloc = report.alloc();
        let reading = reading_named(self.readings, name);
        let first = bytes_from(self.bytes, offset as usize);
        let word = first_word(alloc, first, count_of(value.length), reading)?;
        let field = Field {
            address: address_after(self.at, offset),
            length: value.length,
        };
        field_words(report, self.term, name, field, &word)
    }

    /// Adds the line of a symbol, where it is a field of the working storage.
    fn row_line(&self, report: &mut Report, name: Name8, symbol: &Symbol) -> Result<(), AllocError>
        requires { length self.now.bytes.now ≤ 65520 }
        ensures { let line = kept_row self.now.term self.now.readings.now self.now.at self.now.bytes.now in
            OnOk result (report.new ≡ report.old ++ line (name, symbol.now)) }
    {
        let storage = symbol_name(b"DFHEISTG");
        let Some(offset) = offset_up_to(self.bytes.len() as u32, storage, &symbol.value) else {
            return Ok(());
        };
        self.field_line(report, name, &symbol.value, offset)
    }

    /// Adds the lines of the symbols that are fields of the working storage.
    fn rows_lines(&self, report: &mut Report, names: &Names) -> Result<(), AllocError>
        requires { length self.now.bytes.now ≤ 65520 }
        ensures { let line = kept_row self.now.term self.now.readings.now self.now.at self.now.bytes.now in
            OnOk result (report.new ≡ report.old ++ flat_map line names.now.symbols.entries) }
    {
        for (name, symbol) in names.symbols.iter() {
            self.row_line(report, *name, symbol)?;
        }
        Ok(())
    }
}

/// Adds a line for each field of the working storage of a placed source, by the bytes of that storage that were kept.
fn kept_of(
    report: &mut Report,
    placed: &PlacedSource<'_>,
    term: Name4,
    at: u32,
    bytes: &[u8],
) -> Result<(), AllocError>
    requires { length bytes.now ≤ 65520 }
    ensures { let line = kept_row term (readings_of placed.now) at bytes.now in
        OnOk result (report.new ≡ report.old ++ flat_map line (symbols_of placed.now).rows) }
{
    let alloc = report.alloc();
    let names = placed.names(alloc)?;
    let readings = readings_of(alloc, placed.source())?;
    let kept = KeptStorage {
        term,
        at,
        bytes,
        readings: readings.as_slice(),
    };
    kept.rows_lines(report, &names)
}

/// Adds a line for each field of the working storage of a source with these lines, in the order of the source, by the
/// bytes of that storage that were kept, the first of which was at an address: as `fields_text` has it. A field that
/// isn't all in them has hyphens for its bytes. There are at most 65,520 bytes.
///
/// An error comes only where memory was refused.
#[tactic(auto, unfolding(crate::specs::KeptFields::kept_fields))]
pub fn kept_fields(
    report: &mut Report,
    lines: &[Text],
    term: Name4,
    at: u32,
    bytes: &[u8],
) -> Result<(), AllocError>
    requires { length bytes.now ≤ 65520 }
    ensures { OnOk result (report.new ≡ report.old ++ kept_fields term lines.now at bytes.now) }
{
    let alloc = report.alloc();
    let source = translated_in(alloc, lines)?;
    let Some(placed) = PlacedSource::of(alloc, &source)? else {
        return Ok(());
    };
    kept_of(report, &placed, term, at, bytes)
}
