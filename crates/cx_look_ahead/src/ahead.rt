//! AHEAD.
ghost use Rattle.std.specs.Prelude.{◌≡◌, [], ◌∷◌, ◌++◌, codes, IfOk, OnOk};
ghost use Rattle.std.specs.List.{flat_map};
ghost use Rattle.cx_look_lines.specs.Words.{look_line};
ghost use Rattle.cx_look_ahead.specs.Ahead.{AheadText, TurnText, changed_row_line, fields_ahead};
ghost use Rattle.cx_look_ahead.specs.Parts.Words.{turn_end_line};

use crate::bytes::changed_row_line;
use crate::instructions::trace_lines;
use crate::rows::{Row, rows_between};
use cx_base::{shown, shown_name};
use cx_ebcdic::Name4;
use cx_look_fields::{LevelFields, standing_at};
use cx_look_lines::Report;
use cx_look_symbols::Sources;
use cx_look_turn::trace_ahead;
use cx_region::{Region, TurnReply};
use cx_region_snapshot::turn_apart;
use cx_storage::Store;
use std::alloc::{AllocError, Global};

/// Adds the line of a turn whose reply has a condition or a code.
fn detailed_line(
    report: &mut Report,
    name: &[u8],
    answer: &[u8],
    detail: &[u8],
) -> Result<(), AllocError>
    ensures { let words = name.now ∷ answer.now ∷ detail.now ∷ [] in
        OnOk result (report.new ≡ report.old ++ look_line (codes "AHEAD" ∷ words)) }
{
    report.line(&[b"AHEAD", name, answer, detail])
}

/// Adds the line of a turn whose reply has none.
fn plain_line(report: &mut Report, name: &[u8], answer: &[u8]) -> Result<(), AllocError>
    ensures { OnOk result (report.new ≡ report.old ++ look_line (codes "AHEAD" ∷ name.now ∷ answer.now ∷ [])) }
{
    report.line(&[b"AHEAD", name, answer])
}

/// Adds the line of how a turn ends.
fn turn_end_line(report: &mut Report, name: Name4, reply: &TurnReply) -> Result<(), AllocError>
    ensures { OnOk result (report.new ≡ report.old ++ turn_end_line name reply.now) }
{
    let name = shown_name(report.alloc(), name)?;
    let answer = reply.name().as_bytes();
    match reply {
        TurnReply::Performed(condition) | TurnReply::TookLabel(condition) => {
            detailed_line(report, &name, answer, condition.name().as_bytes())
        }
        TurnReply::TookExit(code) | TurnReply::Abended(code) => {
            let code = shown(report.alloc(), &code.bytes())?;
            detailed_line(report, &name, answer, &code)
        }
        _ => plain_line(report, &name, answer),
    }
}

/// What the fields of the current level of a terminal's task are found by.
fn fields_ahead<S: Store + Drop>(
    alloc: Global,
    sources: &Sources,
    region: &Region<S>,
    name: Name4,
) -> Result<Option<LevelFields>, AllocError>
    ensures { IfOk result (λ fields. fields ≡ fields_ahead sources.now region.now name) }
{
    match standing_at(region, name, None) {
        Some(standing) => LevelFields::at(alloc, sources.source_lines(standing.program), &standing),
        None => Ok(None),
    }
}

/// Adds the lines of rows.
fn row_lines<S: Store + Drop>(
    report: &mut Report,
    fields: &Option<LevelFields>,
    before: &Region<S>,
    after: &Region<S>,
    rows: &[Row],
) -> Result<(), AllocError>
    ensures { let line = changed_row_line fields.now before.now.shared.storage after.now.shared.storage in
        OnOk result (report.new ≡ report.old ++ flat_map line rows.now) }
{
    for row in rows {
        changed_row_line(report, fields, before, after, *row)?;
    }
    Ok(())
}

/// A terminal's turn: its reply, and the regions before it and after it.
#[derive(Drop)]
struct TurnDone<'a, S: Store + Drop> {
    name: Name4,
    reply: TurnReply,
    before: &'a Region<S>,
    after: &'a Region<S>,
}

impl<'a, S: Store + Drop> TurnDone<'a, S> {
    /// What is written for the turn, with the last ones of its instructions.
    fn text(&self, alloc: Global, sources: &Sources, most: usize) -> Result<Report, AllocError>
        ensures { let after = self.now.after.now.shared.storage in IfOk result (λ report.
            TurnText sources.now self.now.before.now self.now.name most self.now.reply after report) }
    {
        let mut report = Report::new(alloc);
        turn_end_line(&mut report, self.name, &self.reply)?;
        let trace = trace_ahead(alloc, self.before, self.name, most)?;
        trace_lines(&mut report, sources, &self.before.shared().programs, &trace)?;
        let rows = rows_between(
            alloc,
            &self.before.shared().store,
            &self.after.shared().store,
        )?;
        let fields = fields_ahead(alloc, sources, self.before, self.name)?;
        row_lines(&mut report, &fields, self.before, self.after, &rows)?;
        Ok(report)
    }
}

/// Looks at what the next turn of a terminal will do: how it will end, in the words that are written for the turn;
/// where it runs instructions how many, and a line for each of the last ones, at most `most`: its address and where
/// that is, its bytes, and the statement of a source that has it; and a line for each row of bytes that it will change,
/// with the first 64 of them before the turn and after it, and the field of the task's current level that has its first
/// byte. The turn is done in a region like this one, and its instructions once more over a store like this region's, so
/// nothing changes here.
///
/// An error comes only where memory for these, for what the turn makes, or for the report was refused.
pub fn ahead_text<S: Store + Drop>(
    alloc: Global,
    sources: &Sources,
    region: &Region<S>,
    name: Name4,
    most: usize,
) -> Result<Report, AllocError>
    ensures { IfOk result (λ report. AheadText sources.now region.now name most report) }
{
    let (reply, after) = turn_apart(alloc, region, name)?;
    let turn = TurnDone {
        name,
        reply,
        before: region,
        after: &after,
    };
    let report = turn.text(alloc, sources, most)?;
    Ok(report)
}
