//! FIELD and FIELDS.
ghost use Rattle.std.specs.Prelude.{◌≡◌, ◌<◌, ◌^◌, ◌++◌, ◌∷◌, [], IfOk, IfSome, OnOk, Some, min, option_and_then, codes};
ghost use Rattle.std.specs.List.{list_any};
ghost use Rattle.cx_ebcdic.specs.Names.{is_name};
ghost use Rattle.cx_storage.specs.Storage.{span};
ghost use Rattle.cx_base.specs.Texts.{shown_name};
ghost use Rattle.cx_look_lines.specs.Words.{look_line, written_name};
ghost use Rattle.cx_look_fields.specs.FieldTexts.{field_bytes_word, field_line, field_text, field_there, field_words, fields_lines, fields_text, fields_there, is_wanted, level_program, standing_at, symbol_field_line};

use crate::fields::{Field, LevelFields, TypedField, is_field};
use crate::standing::{Standing, standing_in};
use crate::tasks::task_of;
use crate::{Reading, value_text};
use cx_base::{List, hexadecimal, shown, shown_name};
use cx_ebcdic::{Name4, Name8};
use cx_look_lines::{Report, in_apostrophes, joined, spelled, written_name};
use cx_look_symbols::{Symbol, length_word};
use cx_region::Region;
use cx_source::Text;
use cx_storage::Store;
use std::alloc::{AllocError, Global};

/// The most bytes of a field that are written.
const MOST_BYTES: usize = 32;

/// How many bytes of a field are written.
pub(crate) fn count_of(length: u128) -> usize
    ensures { result ≡ min 32 length }
{
    if length < 32 {
        length as usize
    } else {
        MOST_BYTES
    }
}

/// Bytes in hexadecimal digits and in characters, and the number that they are.
pub(crate) fn word_of(
    alloc: Global,
    bytes: &[u8],
    reading: Option<Reading>,
) -> Result<Vec<u8>, AllocError>
    ensures { IfOk result (λ word. word.items ≡ field_bytes_word reading (Some bytes.now)) }
{
    let characters = in_apostrophes(alloc, &shown(alloc, bytes)?)?;
    let mut word = spelled(alloc, bytes)?;
    word.push(b' ')?;
    word.extend_from_slice(&characters)?;
    word.extend_from_slice(&value_text(alloc, reading, bytes)?)?;
    Ok(word)
}

/// A field's first bytes in hexadecimal digits and in characters, and the number that they are.
fn field_bytes_word<S: Store>(
    alloc: Global,
    store: &S,
    field: Field,
    reading: Option<Reading>,
) -> Result<Vec<u8>, AllocError>
    requires { field.address < 2 ^ 24 }
    ensures { let bytes = span (S.storage store.now) field.address (min 32 field.length) in
        IfOk result (λ word. word.items ≡ field_bytes_word reading bytes) }
{
    let mut buffer = [0; MOST_BYTES];
    let count = count_of(field.length);
    let bytes = &mut buffer[..count];
    if !store.read(field.address, bytes) {
        return b"--".to_vec(alloc);
    }
    word_of(alloc, bytes, reading)
}

/// Adds the line of a field, whose bytes are written so.
#[tactic(auto, unfolding(crate::specs::FieldTexts::field_words))]
pub(crate) fn field_words(
    report: &mut Report,
    term: Name4,
    name: Name8,
    field: Field,
    bytes: &[u8],
) -> Result<(), AllocError>
    ensures { OnOk result (report.new ≡ report.old ++ field_words term name field bytes.now) }
{
    let alloc = report.alloc();
    let length = length_word(alloc, field.length)?;
    let term = shown_name(alloc, term)?;
    let name = written_name(alloc, &name.bytes())?;
    report.line(&[
        b"FIELD",
        &term,
        &name,
        b"AT",
        &hexadecimal::<6>(field.address),
        b"LENGTH",
        &length,
        bytes,
    ])
}

/// Adds the line of a field.
fn field_line<S: Store>(
    report: &mut Report,
    store: &S,
    term: Name4,
    name: Name8,
    typed: TypedField,
) -> Result<(), AllocError>
    requires { typed.field.address < 2 ^ 24 }
    ensures { OnOk result (report.new ≡ report.old ++ field_line (S.storage store.now) term name typed) }
{
    let bytes = field_bytes_word(report.alloc(), store, typed.field, typed.reading)?;
    field_words(report, term, name, typed.field, &bytes)
}

/// The report of a name that is no field there.
fn no_field(alloc: Global, term: Name4, name: Name8) -> Result<Report, AllocError>
    ensures { let words = shown_name term ∷ written_name name ∷ codes "NONE" ∷ [] in
        IfOk result (λ report. report ≡ look_line (codes "FIELD" ∷ words)) }
{
    let mut report = Report::new(alloc);
    let term = shown_name(alloc, term)?;
    let name = written_name(alloc, &name.bytes())?;
    report.line(&[b"FIELD", &term, &name, b"NONE"])?;
    Ok(report)
}

/// Where a level of a terminal's task stands: the level of a number, 1 being the highest, or without one the current
/// level; None where there is no such level. It takes no memory.
pub fn standing_at<S: Store + Drop>(
    region: &Region<S>,
    term: Name4,
    k: Option<u8>,
) -> Option<Standing>
    ensures { result ≡ standing_at region.now term k }
{
    let task = task_of(region, term)?;
    standing_in(&region.shared().programs, task, k)
}

/// The program of a level of a terminal's task: of its number, 1 being the highest, or without one of the current
/// level; None where there is no such level. It takes no memory.
pub fn level_program<S: Store + Drop>(
    region: &Region<S>,
    term: Name4,
    k: Option<u8>,
) -> Option<Name8>
    ensures { result ≡ level_program region.now term k }
{
    let standing = standing_at(region, term, k)?;
    Some(standing.program)
}

/// The field of a name, at an address below 2^24, of a level whose program's source has these lines; None where there
/// is no such level, it isn't at a statement of its source, no base in use reaches the field, or the source has no such
/// symbol.
///
/// An error comes only where memory was refused.
pub fn field_at(
    alloc: Global,
    lines: &[Text],
    name: Name8,
    standing: Option<Standing>,
) -> Result<Option<TypedField>, AllocError>
    ensures value { IfOk result (λ field. field ≡ option_and_then (field_there lines.now name) standing) }
    ensures below_2_24 { IfOk result (λ field. IfSome field (λ it. it.field.address < 2 ^ 24)) }
{
    let Some(standing) = standing else {
        return Ok(None);
    };
    let Some(fields) = LevelFields::at(alloc, lines, &standing)? else {
        return Ok(None);
    };
    Ok(fields.named_field(name))
}

/// What a look at a field asks.
#[derive(Clone, Copy)]
pub struct FieldLook {
    /// The terminal, whose task has the level.
    pub term: Name4,
    /// The field's name.
    pub name: Name8,
    /// The level's number, 1 being the highest; without one it is the current level.
    pub k: Option<u8>,
}

/// Looks at a field of a level of a terminal's task: the level of a number, 1 being the highest, or without one the
/// current level, whose program's source has these lines. A line with the field's address, by the base that the
/// assembler would choose for it at the level's statement, its length attribute, its first 32 bytes or fewer, and the
/// number that they are; NONE where there is no such level, it isn't at a statement of its source, no base in use
/// reaches the field, or the source has no such symbol.
///
/// An error comes only where memory was refused.
#[tactic(auto, unfolding(crate::specs::FieldTexts::field_text))]
pub fn field_text<S: Store + Drop>(
    alloc: Global,
    region: &Region<S>,
    lines: &[Text],
    look: FieldLook,
) -> Result<Report, AllocError>
    ensures { IfOk result (λ report. report ≡ field_text region.now lines.now look.term look.name look.k) }
{
    let standing = standing_at(region, look.term, look.k);
    let Some(field) = field_at(alloc, lines, look.name, standing)? else {
        return no_field(alloc, look.term, look.name);
    };
    let mut report = Report::new(alloc);
    field_line(
        &mut report,
        &region.shared().store,
        look.term,
        look.name,
        field,
    )?;
    Ok(report)
}

/// Whether a name is among some names.
fn is_among(names: &[Name8], name: Name8) -> bool
    ensures { result ≡ list_any (λ it. is_name it name) names.now }
{
    names.iter().any(|it| *it == name)
}

/// Whether a name is asked for.
fn is_wanted(wanted: &Option<List<Name8>>, name: Name8) -> bool
    ensures { result ≡ is_wanted wanted.now name }
{
    match wanted {
        Some(names) => is_among(names.as_slice(), name),
        None => true,
    }
}

/// What the fields of a level are written by: storage, the terminal that is written, and the names that are asked for,
/// None for all.
#[derive(Drop)]
pub struct FieldWriter<'a, S: Store> {
    pub store: &'a S,
    pub term: Name4,
    pub wanted: &'a Option<List<Name8>>,
}

impl<'a, S: Store> FieldWriter<'a, S> {
    /// Adds the line of a symbol, where it is asked for and a field that a base reaches.
    fn symbol_field_line(
        &self,
        report: &mut Report,
        fields: &LevelFields,
        name: Name8,
        symbol: &Symbol,
    ) -> Result<(), AllocError>
        ensures { let storage = S.storage self.now.store.now in
            let line = symbol_field_line self.now.wanted.now storage self.now.term fields.now in
            OnOk result (report.new ≡ report.old ++ line (name, symbol.now)) }
    {
        if !is_wanted(self.wanted, name) || !is_field(fields.names.control, &symbol.value) {
            return Ok(());
        }
        let Some(field) = fields.typed_field(name, symbol) else {
            return Ok(());
        };
        field_line(report, self.store, self.term, name, field)
    }

    /// Adds the lines of the fields of dummy sections that are asked for and that a base reaches where the level
    /// stands, in the order of the source.
    ///
    /// An error comes only where memory was refused; then some of them may be there.
    pub fn fields_lines(&self, report: &mut Report, fields: &LevelFields) -> Result<(), AllocError>
        ensures { let storage = S.storage self.now.store.now in
            let lines = fields_lines self.now.wanted.now storage self.now.term fields.now in
            OnOk result (report.new ≡ report.old ++ lines) }
    {
        for (name, symbol) in fields.names.symbols.iter() {
            self.symbol_field_line(report, fields, *name, symbol)?;
        }
        Ok(())
    }
}

/// Adds the lines of the fields of a source's dummy sections that a base reaches, where a level stands at a statement
/// of its source, whose lines these are; no line where it stands at none.
///
/// An error comes only where memory was refused; then some of them may be there.
pub fn fields_there<S: Store>(
    report: &mut Report,
    store: &S,
    lines: &[Text],
    term: Name4,
    standing: &Standing,
) -> Result<(), AllocError>
    ensures { let more = fields_there (S.storage store.now) lines.now term standing.now in
        OnOk result (report.new ≡ report.old ++ more) }
{
    let Some(fields) = LevelFields::at(report.alloc(), lines, standing)? else {
        return Ok(());
    };
    let writer = FieldWriter {
        store,
        term,
        wanted: &None,
    };
    writer.fields_lines(report, &fields)
}

/// The words that the line of a look at all fields begins with: FIELDS and the terminal.
///
/// An error comes only where memory for them was refused.
pub fn fields_word(alloc: Global, term: Name4) -> Result<Vec<u8>, AllocError>
    ensures { IfOk result (λ word. word.items ≡ codes "FIELDS " ++ shown_name term) }
{
    joined(alloc, b"FIELDS ", &shown_name(alloc, term)?)
}

/// Looks at all fields of a level of a terminal's task, as `field_text` does at one: those of the source's dummy
/// sections that a base reaches, in the order of the source; NONE where there is none.
///
/// An error comes only where memory was refused.
#[tactic(auto, unfolding(crate::specs::FieldTexts::fields_text))]
pub fn fields_text<S: Store + Drop>(
    alloc: Global,
    region: &Region<S>,
    lines: &[Text],
    term: Name4,
    k: Option<u8>,
) -> Result<Report, AllocError>
    ensures { IfOk result (λ report. report ≡ fields_text region.now lines.now term k) }
{
    let mut report = Report::new(alloc);
    if let Some(standing) = standing_at(region, term, k) {
        fields_there(&mut report, &region.shared().store, lines, term, &standing)?;
    }
    report.or_none(&fields_word(alloc, term)?)
}
