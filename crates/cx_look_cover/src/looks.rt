//! Looks at what was run.
ghost use Rattle.std.specs.Prelude.{◌≡◌, ◌++◌, [], IfOk, OnOk};
ghost use Rattle.std.specs.List.{flat_map};
ghost use Rattle.std.specs.Option.{option_map_or};
ghost use Rattle.cx_look_symbols.specs.Sources.{source_lines};
ghost use Rattle.cx_look_cover.specs.Counts.{counted_program};
ghost use Rattle.cx_look_cover.specs.Texts.{count_line, covered_all_text, covered_lines_text, covered_text, covered_word, off_line, program_line_with};

use crate::counts::{counted_program, counted_with};
use crate::tallies::Tallies;
use crate::texts::{count_lines, program_line, program_lines};
use cx_base::shown_name;
use cx_ebcdic::Name8;
use cx_exec::Tally;
use cx_load::Loaded;
use cx_look_lines::{Report, joined};
use cx_look_symbols::Sources;
use cx_region::Region;
use cx_storage::Store;
use std::alloc::{AllocError, Global};

/// The line of a look where nothing is counted.
fn off_line(alloc: Global) -> Result<Report, AllocError>
    ensures { IfOk result (λ report. report ≡ off_line) }
{
    let mut report = Report::new(alloc);
    report.line(&[b"COVER", b"OFF"])?;
    Ok(report)
}

/// The words that a look at a program begins with.
fn covered_word(alloc: Global, name: Name8) -> Result<Vec<u8>, AllocError>
    ensures { IfOk result (λ text. text.items ≡ covered_word name) }
{
    joined(alloc, b"COVERED ", &shown_name(alloc, name)?)
}

/// Looks at what was run of a program: a line with how many of its statements were run, and how many of its conditional
/// branches went both ways; a line with the statements that were never run, if there are any; and a line for each
/// conditional branch that went one way only. NONE where there is no such program, or no source defined it; OFF where
/// nothing is counted.
///
/// An error comes only where memory for the report was refused.
#[tactic(auto, unfolding(crate::specs::Texts::covered_text))]
pub fn covered_text<S: Store + Drop>(
    alloc: Global,
    sources: &Sources,
    region: &Region<S>,
    tallies: &Option<Tallies>,
    program: Name8,
) -> Result<Report, AllocError>
    ensures { IfOk result (λ report. report ≡ covered_text sources.now region.now tallies.now program) }
{
    let Some(tallies) = tallies else {
        return off_line(alloc);
    };
    let mut report = Report::new(alloc);
    let Some(counted) = counted_program(alloc, sources, region, tallies.as_slice(), program)? else {
        return report.or_none(&covered_word(alloc, program)?);
    };
    program_lines(
        &mut report,
        sources.source_lines(program),
        program,
        counted.as_slice(),
    )?;
    Ok(report)
}

/// Adds the statements of a program with their counts, if a source defined it.
fn push_counts<S: Store + Drop>(
    report: &mut Report,
    sources: &Sources,
    region: &Region<S>,
    tallies: &[Tally],
    program: Name8,
) -> Result<(), AllocError>
    ensures { let lines = option_map_or (flat_map (count_line (source_lines sources.now program)))
        (counted_program sources.now region.now tallies.now program) [] in
        OnOk result (report.new ≡ report.old ++ lines) }
{
    let Some(counted) = counted_program(report.alloc(), sources, region, tallies, program)? else {
        return Ok(());
    };
    count_lines(report, sources.source_lines(program), counted.as_slice())
}

/// Looks at how often each statement of a program was run: a line for each, in their order, with the number of its line
/// in five digits, the count in decimal digits with blanks in front to five places at least, or five hyphens where it
/// was never run, and its text. NONE where there is no such program, or no source defined it, or it has no statement;
/// OFF where nothing is counted.
///
/// An error comes only where memory for the report was refused.
#[tactic(auto, unfolding(crate::specs::Texts::covered_lines_text))]
pub fn covered_lines_text<S: Store + Drop>(
    alloc: Global,
    sources: &Sources,
    region: &Region<S>,
    tallies: &Option<Tallies>,
    program: Name8,
) -> Result<Report, AllocError>
    ensures { IfOk result (λ report. report ≡ covered_lines_text sources.now region.now tallies.now program) }
{
    let Some(tallies) = tallies else {
        return off_line(alloc);
    };
    let mut report = Report::new(alloc);
    push_counts(&mut report, sources, region, tallies.as_slice(), program)?;
    let word = covered_word(alloc, program)?;
    report.or_none(&word)
}

/// Adds the line of a program, if a source defined it.
fn push_program<S: Store + Drop>(
    report: &mut Report,
    sources: &Sources,
    region: &Region<S>,
    tallies: &[Tally],
    name: Name8,
    loaded: &Loaded,
) -> Result<(), AllocError>
    ensures { let line = program_line_with sources.now region.now tallies.now (name, loaded.now) in
        OnOk result (report.new ≡ report.old ++ line) }
{
    let store = &region.shared().store;
    let Some(counted) = counted_with(report.alloc(), sources, store, tallies, name, loaded)? else {
        return Ok(());
    };
    program_line(report, name, counted.as_slice())
}

/// Adds the lines of the programs that a source defined.
fn push_programs<S: Store + Drop>(
    report: &mut Report,
    sources: &Sources,
    region: &Region<S>,
    tallies: &[Tally],
) -> Result<(), AllocError>
    ensures { let lines = flat_map (program_line_with sources.now region.now tallies.now) region.now.shared.programs in
        OnOk result (report.new ≡ report.old ++ lines) }
{
    for (name, loaded) in region.shared().programs.iter() {
        push_program(report, sources, region, tallies, *name, loaded)?;
    }
    Ok(())
}

/// Looks at what was run of each program that a source defined: its line as `covered_text` has it, in the order of the
/// region's programs. NONE where no source defined one; OFF where nothing is counted.
///
/// An error comes only where memory for the report was refused.
#[tactic(auto, unfolding(crate::specs::Texts::covered_all_text))]
pub fn covered_all_text<S: Store + Drop>(
    alloc: Global,
    sources: &Sources,
    region: &Region<S>,
    tallies: &Option<Tallies>,
) -> Result<Report, AllocError>
    ensures { IfOk result (λ report. report ≡ covered_all_text sources.now region.now tallies.now) }
{
    let Some(tallies) = tallies else {
        return off_line(alloc);
    };
    let mut report = Report::new(alloc);
    push_programs(&mut report, sources, region, tallies.as_slice())?;
    report.or_none(b"COVERED")
}
