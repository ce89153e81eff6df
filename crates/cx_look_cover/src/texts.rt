//! What looks write of what was run.
ghost use Rattle.std.specs.Prelude.{◌≡◌, ◌++◌, IfOk, OnOk, map};
ghost use Rattle.std.specs.List.{count_by, flat_map};
ghost use Rattle.cx_look_lines.specs.Words.{with_blanks};
ghost use Rattle.cx_look_symbols.specs.Sources.{text_on};
ghost use Rattle.cx_look_cover.specs.Counts.{goes_both_ways, is_branch, was_run};
ghost use Rattle.cx_look_cover.specs.Texts.{branch_line, count_line, count_word, lines_never_run, never_line, program_line, program_lines, range_word, way_line};

use crate::counts::{Counted, goes_both_ways, is_branch, one_way, was_run};
use crate::ranges::{LineRange, ranges_of};
use cx_base::shown_name;
use cx_ebcdic::Name8;
use cx_exec::Tally;
use cx_look_lines::{Report, decimal, push_word};
use cx_look_symbols::{five_digits, push_text_on};
use cx_source::Text;
use std::alloc::{AllocError, Global};

/// The fewest places of a count.
const COUNT_PLACES: usize = 5;

/// The text of a line, counted from 1.
fn text_on(alloc: Global, lines: &[Text], line: usize) -> Result<Vec<u8>, AllocError>
    ensures { IfOk result (λ text. text.items ≡ text_on lines.now line) }
{
    let mut text = Vec::new(alloc);
    push_text_on(&mut text, lines, line)?;
    Ok(text)
}

/// A number in decimal digits, with blanks in front to five places at least; hyphens for zero.
#[tactic(auto, unfolding(crate::specs::Texts::count_word))]
fn count_word(alloc: Global, n: u64) -> Result<Vec<u8>, AllocError>
    ensures { IfOk result (λ word. word.items ≡ count_word n) }
{
    if n == 0 {
        return b"-----".to_vec(alloc);
    }
    let digits = decimal(alloc, n as usize)?;
    let mut word = Vec::new(alloc);
    word.resize(COUNT_PLACES.saturating_sub(digits.len()), b' ')?;
    word.extend_from_slice(&digits)?;
    Ok(word)
}

/// One line, or the first and the last of several.
fn range_word(alloc: Global, range: &LineRange) -> Result<Vec<u8>, AllocError>
    ensures { IfOk result (λ word. word.items ≡ range_word range.now) }
{
    let mut word = five_digits(range.first).to_vec(alloc)?;
    if range.first != range.last {
        word.push(b'-')?;
        word.extend_from_slice(&five_digits(range.last))?;
    }
    Ok(word)
}

/// Adds ranges, each after a blank.
fn push_ranges(alloc: Global, text: &mut Vec<u8>, ranges: &[LineRange]) -> Result<(), AllocError>
    ensures { OnOk result (text.new.items ≡ text.old.items ++ with_blanks (map range_word ranges.now)) }
{
    for range in ranges {
        push_word(text, &range_word(alloc, range)?)?;
    }
    Ok(())
}

/// How many statements were run.
fn count_run(counted: &[Counted]) -> usize
    ensures { result ≡ count_by was_run counted.now }
{
    counted.iter().filter(|it| was_run(it)).count()
}

/// How many statements are conditional branches.
fn count_branches(counted: &[Counted]) -> usize
    ensures { result ≡ count_by is_branch counted.now }
{
    counted.iter().filter(|it| is_branch(it)).count()
}

/// How many of them went both ways.
fn count_both_ways(counted: &[Counted]) -> usize
    ensures { result ≡ count_by goes_both_ways counted.now }
{
    counted.iter().filter(|it| goes_both_ways(it)).count()
}

/// Adds how many of a program's statements were run, and how many of its conditional branches went both ways.
///
/// An error comes only where memory was refused.
#[tactic(auto, unfolding(crate::specs::Texts::program_line))]
pub(crate) fn program_line(
    report: &mut Report,
    name: Name8,
    counted: &[Counted],
) -> Result<(), AllocError>
    ensures { OnOk result (report.new ≡ report.old ++ program_line name counted.now) }
{
    let alloc = report.alloc();
    let name = shown_name(alloc, name)?;
    let run = decimal(alloc, count_run(counted))?;
    let all = decimal(alloc, counted.len())?;
    let both_ways = decimal(alloc, count_both_ways(counted))?;
    let branches = decimal(alloc, count_branches(counted))?;
    report.line(&[
        b"COVERED",
        &name,
        b"STATEMENTS",
        &run,
        b"OF",
        &all,
        b"BRANCHES BOTH WAYS",
        &both_ways,
        b"OF",
        &branches,
    ])
}

/// The lines of statements that were never run.
fn lines_never_run(alloc: Global, counted: &[Counted]) -> Result<Vec<usize>, AllocError>
    ensures { IfOk result (λ lines. lines.items ≡ lines_never_run counted.now) }
{
    let mut lines = Vec::new(alloc);
    for it in counted {
        if !was_run(it) {
            lines.push(it.line)?;
        }
    }
    Ok(lines)
}

/// Adds the line of statements that were never run, if there are any.
#[tactic(auto, unfolding(crate::specs::Texts::never_line))]
fn never_line(report: &mut Report, counted: &[Counted]) -> Result<(), AllocError>
    ensures { OnOk result (report.new ≡ report.old ++ never_line counted.now) }
{
    let alloc = report.alloc();
    let lines = lines_never_run(alloc, counted)?;
    if lines.is_empty() {
        return Ok(());
    }
    let ranges = ranges_of(alloc, lines.as_slice())?;
    let mut text = b"NEVER".to_vec(alloc)?;
    push_ranges(alloc, &mut text, ranges.as_slice())?;
    report.push(text)
}

/// Adds the line of a conditional branch, where it went one way only.
fn way_line(
    report: &mut Report,
    lines: &[Text],
    line: usize,
    tally: Tally,
) -> Result<(), AllocError>
    ensures { OnOk result (report.new ≡ report.old ++ way_line lines.now line tally) }
{
    let Some(way) = one_way(tally) else {
        return Ok(());
    };
    let alloc = report.alloc();
    let runs = decimal(alloc, tally.runs as usize)?;
    let text = text_on(alloc, lines, line)?;
    report.line(&[b"BRANCH", &five_digits(line), way, &runs, &text])
}

/// Adds the line of a statement, where it is a conditional branch that went one way only.
fn branch_line(report: &mut Report, lines: &[Text], it: &Counted) -> Result<(), AllocError>
    ensures { OnOk result (report.new ≡ report.old ++ branch_line lines.now it.now) }
{
    match it.branch {
        Some(tally) => way_line(report, lines, it.line, tally),
        None => Ok(()),
    }
}

/// Adds the lines of conditional branches that went one way only.
fn branch_lines(report: &mut Report, lines: &[Text], counted: &[Counted]) -> Result<(), AllocError>
    ensures { OnOk result (report.new ≡ report.old ++ flat_map (branch_line lines.now) counted.now) }
{
    for it in counted {
        branch_line(report, lines, it)?;
    }
    Ok(())
}

/// Adds the lines of a program: what was run of it, and what never was.
///
/// An error comes only where memory was refused.
pub(crate) fn program_lines(
    report: &mut Report,
    lines: &[Text],
    name: Name8,
    counted: &[Counted],
) -> Result<(), AllocError>
    ensures { OnOk result (report.new ≡ report.old ++ program_lines lines.now name counted.now) }
{
    program_line(report, name, counted)?;
    never_line(report, counted)?;
    branch_lines(report, lines, counted)
}

/// Adds a statement's line, with how often it was run.
fn count_line(report: &mut Report, lines: &[Text], it: &Counted) -> Result<(), AllocError>
    ensures { OnOk result (report.new ≡ report.old ++ count_line lines.now it.now) }
{
    let alloc = report.alloc();
    let count = count_word(alloc, it.runs)?;
    let text = text_on(alloc, lines, it.line)?;
    report.line(&[&five_digits(it.line), &count, &text])
}

/// Adds the lines of statements, with how often they were run.
///
/// An error comes only where memory was refused.
pub(crate) fn count_lines(
    report: &mut Report,
    lines: &[Text],
    counted: &[Counted],
) -> Result<(), AllocError>
    ensures { OnOk result (report.new ≡ report.old ++ flat_map (count_line lines.now) counted.now) }
{
    for it in counted {
        count_line(report, lines, it)?;
    }
    Ok(())
}
