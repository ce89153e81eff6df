//! WHERE.
ghost use Rattle.std.specs.Prelude.{◌≡◌, ◌++◌, ◌∷◌, [], IfOk, OnOk, codes};
ghost use Rattle.std.specs.List.{flat_map};
ghost use Rattle.std.specs.Option.{option_map_or};
ghost use Rattle.cx_look_fields.specs.Addresses.{level_field_line, level_lines_at, place_words, spot_line, standing_line, terminal_field_lines, where_text};
ghost use Rattle.cx_look_fields.specs.Nearest.{near_word};
ghost use Rattle.cx_look_fields.specs.Parts.Tasks.{task_field_lines};
ghost use Rattle.cx_look_lines.specs.Words.{look_line};

use crate::names::{nearest_field, nearest_label};
use crate::nearest::{Near, near_word};
use crate::{Standing, standing_in};
use cx_base::{decimal, shown_name};
use cx_ebcdic::{Name4, Name8};
use cx_load::Loaded;
use cx_look_lines::Report;
use cx_look_storage::met_lines;
use cx_look_symbols::{
    Place, Sources, Spot, address_word, place_at_address, push_led_by, statement_at,
};
use cx_region::{Region, Task, Terminal};
use cx_storage::Store;
use indexmap::IndexMap;
use std::alloc::{AllocError, Global};

/// Adds the line of the nearest label, if there is one.
fn nearest_label_line(report: &mut Report, near: Option<Near>) -> Result<(), AllocError>
    ensures { let line = option_map_or (λ it. look_line (codes "LABEL" ∷ near_word it ∷ [])) near [] in
        OnOk result (report.new ≡ report.old ++ line) }
{
    let Some(near) = near else {
        return Ok(());
    };
    let word = near_word(report.alloc(), near)?;
    report.line(&[b"LABEL", &word])
}

/// Adds the line of the nearest label of a byte of a program, if a program has it.
fn spot_line(report: &mut Report, sources: &Sources, spot: &Option<Spot>) -> Result<(), AllocError>
    ensures { OnOk result (report.new ≡ report.old ++ option_map_or (spot_line sources.now) spot.now []) }
{
    let Some(spot) = spot else {
        return Ok(());
    };
    let lines = sources.source_lines(spot.program);
    let near = nearest_label(report.alloc(), spot.offset, lines)?;
    nearest_label_line(report, near)
}

/// Adds the line of a level's field, if it has one there.
fn level_field_line(
    report: &mut Report,
    term: Name4,
    k: u8,
    near: Option<Near>,
) -> Result<(), AllocError>
    ensures { OnOk result (report.new ≡ report.old ++ option_map_or (level_field_line term k) near []) }
{
    let Some(near) = near else {
        return Ok(());
    };
    let word = near_word(report.alloc(), near)?;
    let term = shown_name(report.alloc(), term)?;
    let k = decimal::<2>(u32::from(k));
    report.line(&[b"FIELD", &term, b"LEVEL", &k, &word])
}

/// An address whose fields are sought, with the programs and sources of the levels that may have them.
#[derive(Drop)]
struct SoughtAddress<'a> {
    address: u32,
    programs: &'a IndexMap<Name8, Loaded>,
    sources: &'a Sources,
}

impl SoughtAddress<'_> {
    /// Adds the line of the field that a level has there.
    fn standing_line(
        &self,
        report: &mut Report,
        term: Name4,
        k: u8,
        standing: &Standing,
    ) -> Result<(), AllocError>
        ensures { let line = standing_line self.now.sources.now self.now.address term k standing.now in
            OnOk result (report.new ≡ report.old ++ line) }
    {
        let lines = self.sources.source_lines(standing.program);
        let near = nearest_field(report.alloc(), self.address, lines, standing)?;
        level_field_line(report, term, k, near)
    }

    /// Adds the line of the field that the level of a number has there, if there is such a level.
    fn level_lines_at(
        &self,
        report: &mut Report,
        term: Name4,
        task: &Task,
        k: u8,
    ) -> Result<(), AllocError>
        ensures { let line = level_lines_at self.now.programs.now.entries self.now.sources.now self.now.address in
            OnOk result (report.new ≡ report.old ++ line term task.now k) }
    {
        let Some(standing) = standing_in(self.programs, task, Some(k)) else {
            return Ok(());
        };
        self.standing_line(report, term, k, &standing)
    }

    /// Adds the lines of the fields that a task's levels have there.
    fn task_field_lines(
        &self,
        report: &mut Report,
        term: Name4,
        task: &Task,
    ) -> Result<(), AllocError>
        ensures { let lines = task_field_lines self.now.programs.now.entries self.now.sources.now self.now.address in
            OnOk result (report.new ≡ report.old ++ lines term task.now) }
    {
        let levels = task.levels.len();
        for k in 0..levels {
            self.level_lines_at(report, term, task, k as u8 + 1)?;
        }
        Ok(())
    }

    /// Adds the lines of the fields that a terminal's task has there.
    fn terminal_field_lines(
        &self,
        report: &mut Report,
        term: Name4,
        terminal: &Terminal,
    ) -> Result<(), AllocError>
        ensures { let lines =
            terminal_field_lines self.now.programs.now.entries self.now.sources.now self.now.address in
            OnOk result (report.new ≡ report.old ++ lines (term, terminal.now)) }
    {
        match terminal.task() {
            Some(task) => self.task_field_lines(report, term, task),
            None => Ok(()),
        }
    }

    /// Adds the lines of the fields that the tasks of all terminals have there.
    fn all_lines(
        &self,
        report: &mut Report,
        terminals: &IndexMap<Name4, Terminal>,
    ) -> Result<(), AllocError>
        ensures { let line = terminal_field_lines self.now.programs.now.entries self.now.sources.now self.now.address in
            OnOk result (report.new ≡ report.old ++ flat_map line terminals.now.entries) }
    {
        for (term, terminal) in terminals.iter() {
            self.terminal_field_lines(report, *term, terminal)?;
        }
        Ok(())
    }
}

/// An address and where it is, with the statement that has its byte.
fn place_words(alloc: Global, sources: &Sources, place: &Place) -> Result<Vec<u8>, AllocError>
    ensures { IfOk result (λ words. words.items ≡ place_words sources.now place.now) }
{
    let mut words = address_word(alloc, place)?;
    push_led_by(
        &mut words,
        b" LINE ",
        &statement_at(alloc, sources, &place.spot)?,
    )?;
    Ok(words)
}

/// Looks at an address: the program that has it, with its offset in that, and in a program that a source defined the
/// line of the statement that has its byte, and the nearest label at it or before it; the area that has its byte; and
/// for each level of each task, the highest level first, the field that has the byte, where one has it, which begins
/// last, and of those that begin together is defined first.
///
/// An error comes only where memory was refused.
#[tactic(auto, unfolding(crate::specs::Addresses::where_text))]
pub fn where_text<S: Store + Drop>(
    alloc: Global,
    sources: &Sources,
    region: &Region<S>,
    address: u32,
) -> Result<Report, AllocError>
    ensures { IfOk result (λ report. report ≡ where_text sources.now region.now address) }
{
    let mut report = Report::new(alloc);
    let programs = &region.shared().programs;
    let place = place_at_address(programs, address);
    let words = place_words(report.alloc(), sources, &place)?;
    report.line(&[b"WHERE", &words])?;
    spot_line(&mut report, sources, &place.spot)?;
    met_lines(&mut report, region, address, 1)?;
    let sought = SoughtAddress {
        address,
        programs,
        sources,
    };
    sought.all_lines(&mut report, region.terminals())?;
    Ok(report)
}
