//! FAULTS: the faulty lines of a source in a script.
ghost use Rattle.std.specs.Prelude.{◌≡◌, ◌+◌, ◌++◌, IfOk, OnOk, map};
ghost use Rattle.std.specs.List.{flat_map};
ghost use Rattle.cx_script_blocks.specs.Shown.{printable_byte};
ghost use Rattle.cx_look_script.specs.Faults.{mark_line, fault_lines, fault_word, faults_text, note_line, line_and_column, source_text_at, with_marks};

use cx_base::shown_name;
use cx_look::SourceLines;
use cx_look_faults::{Findings, Mark, Note, Spot, findings_of};
use cx_look_lines::{Report, decimal};
use cx_script_blocks::printable_byte;
use cx_source::Text;
use std::alloc::{AllocError, Global};

/// A source's line by its number, counted from 1; after the last comes the block's end.
fn source_text_at(lines: &[Text], number: usize) -> &[u8]
    ensures { result.now ≡ source_text_at lines.now number }
{
    match lines.get(number.saturating_sub(1)) {
        Some(line) => line.as_slice(),
        None => b"/*",
    }
}

/// A line as it is shown.
fn shown(alloc: Global, text: &[u8]) -> Result<Vec<u8>, AllocError>
    ensures { IfOk result (λ found. found.items ≡ map printable_byte text.now) }
{
    let mut found = Vec::new(alloc);
    for c in text {
        found.push(printable_byte(*c))?;
    }
    Ok(found)
}

/// A text with marks round a part.
fn with_marks(alloc: Global, spot: Spot, text: &[u8]) -> Result<Vec<u8>, AllocError>
    ensures { IfOk result (λ found. found.items ≡ with_marks spot text.now) }
{
    let (before, from) = text.split_at(text.len().min(spot.column.saturating_sub(1)));
    let (part, after) = from.split_at(from.len().min(spot.length));
    let mut found = before.to_vec(alloc)?;
    found.extend_from_slice(b">>")?;
    found.extend_from_slice(part)?;
    found.extend_from_slice(b"<<")?;
    found.extend_from_slice(after)?;
    Ok(found)
}

/// The number in the script of a source's line. No script has too many lines for the sum to fit.
fn number_in_script(first: usize, line: usize) -> Result<usize, AllocError>
    ensures { IfOk result (λ number. number ≡ first + line) }
{
    first.checked_add(line).ok_or(AllocError)
}

/// Where a part is in the script.
fn line_and_column(alloc: Global, source: &SourceLines, spot: Spot) -> Result<Vec<u8>, AllocError>
    ensures { IfOk result (λ word. word.items ≡ line_and_column source.now spot) }
{
    let mut word = decimal(alloc, number_in_script(source.first, spot.line)?)?;
    word.extend_from_slice(b":")?;
    word.extend_from_slice(&decimal(alloc, spot.column)?)?;
    Ok(word)
}

/// A fault's name, and the names of what is missing.
fn fault_word(alloc: Global, mark: &Mark) -> Result<Vec<u8>, AllocError>
    ensures { IfOk result (λ word. word.items ≡ fault_word mark.now) }
{
    let mut word = mark.kind.name().as_bytes().to_vec(alloc)?;
    let missing = mark.missing.as_slice();
    if !missing.is_empty() {
        word.extend_from_slice(b" ")?;
        word.extend_from_slice(missing)?;
    }
    Ok(word)
}

/// Adds the line that reports a faulty line.
fn mark_line(report: &mut Report, source: &SourceLines, mark: &Mark) -> Result<(), AllocError>
    ensures { OnOk result (report.new ≡ report.old ++ mark_line source.now mark.now) }
{
    let place = line_and_column(report.alloc(), source, mark.spot)?;
    let word = fault_word(report.alloc(), mark)?;
    let line = source_text_at(source.lines.as_slice(), mark.spot.line);
    let shown = shown(report.alloc(), line)?;
    let text = with_marks(report.alloc(), mark.spot, &shown)?;
    report.line(&[&place, &word, &text])
}

/// Adds a line for each of some faulty lines.
fn lines_of_faults(
    report: &mut Report,
    source: &SourceLines,
    marks: &[Mark],
) -> Result<(), AllocError>
    ensures { OnOk result (report.new ≡ report.old ++ flat_map (mark_line source.now) marks.now) }
{
    for mark in marks {
        mark_line(report, source, mark)?;
    }
    Ok(())
}

/// A line for each of some faulty lines, or the words that there is none.
fn fault_lines(alloc: Global, source: &SourceLines, found: &Findings) -> Result<Report, AllocError>
    ensures { IfOk result (λ report. report ≡ fault_lines source.now found.now.faults.items found.now.marks.items) }
{
    let mut report = Report::new(alloc);
    if found.faults.is_empty() {
        let name = shown_name(alloc, source.name)?;
        report.line(&[b"FAULTS", &name, b"NONE"])?;
        return Ok(report);
    }
    lines_of_faults(&mut report, source, &found.marks)?;
    Ok(report)
}

/// Adds the line of a note.
fn note_line(report: &mut Report, source: &SourceLines, note: &Note) -> Result<(), AllocError>
    ensures { OnOk result (report.new ≡ report.old ++ note_line source.now note.now) }
{
    let place = line_and_column(report.alloc(), source, note.spot)?;
    let text = shown(report.alloc(), note.text.as_slice())?;
    report.line(&[&place, b"NOTE", &text])
}

/// Adds a line for each of some notes.
fn note_lines(report: &mut Report, source: &SourceLines, notes: &[Note]) -> Result<(), AllocError>
    ensures { OnOk result (report.new ≡ report.old ++ flat_map (note_line source.now) notes.now) }
{
    for note in notes {
        note_line(report, source, note)?;
    }
    Ok(())
}

/// What the look has to say of the lines of a source.
#[tactic(auto, unfolding(crate::specs::Faults::faults_text))]
pub(crate) fn faults_text(alloc: Global, source: &SourceLines) -> Result<Report, AllocError>
    ensures { IfOk result (λ report. report ≡ faults_text source.now) }
{
    let found = findings_of(alloc, source.lines.as_slice())?;
    let mut report = fault_lines(alloc, source, &found)?;
    note_lines(&mut report, source, &found.notes)?;
    Ok(report)
}
