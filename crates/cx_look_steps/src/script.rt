//! Steps as the lines of a script.

ghost use Rattle.std.specs.Prelude.{◌≡◌, ◌<◌, ◌∷◌, ◌++◌, List as Elements, None, OnOk, IfOk, length, nat_le, ℕ};
ghost use Rattle.std.specs.Option.{option_copied};
ghost use Rattle.std.specs.List.{flat_map};
ghost use Rattle.cx_look_steps.specs.Script.{comment_lines, comments_on, key_at, key_line, no_turns, off_line, row_after, row_before, row_goes_on, row_lines, script_lines, step_lines, steps_lines, with_text, with_turn};

use crate::incidents::terminal_name_at;
use crate::steps::Step;
use cx_base::{List, shown_name};
use cx_ebcdic::Name4;
use cx_look_lines::{Report, decimal, joined};
use cx_orders::{KeyLine, key_of};
use cx_region::Region;
use cx_storage::Store;
use std::alloc::{AllocError, Global};

/// Turns in a row of one terminal: its number, from 0, in the order of their definition, how many there are, and what
/// is told of them, in their order.
#[derive(Drop)]
pub struct Row {
    pub number: usize,
    pub many: usize,
    pub told: List<List<u8>>,
}

/// Whether a line with a text more has at most 100 characters.
fn fits(line: &[u8], text: &[u8]) -> bool
    ensures { result ≡ nat_le (length (with_text line.now text.now)) 100 }
{
    line.len() + text.len() <= 98
}

/// A line of comments with a text more.
///
/// An error comes only where memory was refused.
fn with_text(line: Vec<u8>, text: &[u8]) -> Result<Vec<u8>, AllocError>
    ensures { IfOk result (λ longer. longer.items ≡ with_text line.items text.now) }
{
    let mut longer = line;
    longer.extend_from_slice(b", ")?;
    longer.extend_from_slice(text)?;
    Ok(longer)
}

/// The line of comments that a text goes on with; where it doesn't fit, it begins another, and the line is added to the
/// report.
fn comment_on(report: &mut Report, line: Vec<u8>, text: &[u8]) -> Result<Vec<u8>, AllocError>
    ensures { (texts : Elements (Elements ℕ)) → IfOk result (λ next. report.new ++ comments_on next.items texts
        ≡ report.old ++ comments_on line.items (text.now ∷ texts)) }
{
    if fits(line.as_slice(), text) {
        let longer = with_text(line, text)?;
        return Ok(longer);
    }
    report.push(line)?;
    let next = joined(report.alloc(), b"* ", text)?;
    Ok(next)
}

/// Adds texts as lines of comments.
fn comment_lines(report: &mut Report, texts: &[List<u8>]) -> Result<(), AllocError>
    ensures { OnOk result (report.new ≡ report.old ++ comment_lines texts.now) }
{
    let Some((first, others)) = texts.split_first() else {
        return Ok(());
    };
    let mut line = joined(report.alloc(), b"* ", first.as_slice())?;
    for text in others {
        line = comment_on(report, line, text.as_slice())?;
    }
    report.push(line)
}

/// Whether a step is one more turn of a row, of which a line can ask for 4,096.
fn row_goes_on(row: &Option<Row>, step: &Step) -> bool
    ensures { result ≡ row_goes_on row.now step.now }
{
    let Some(row) = row else {
        return false;
    };
    step.key.is_none() && row.number == step.number && row.many < 4096
}

/// A row without turns.
fn no_turns(alloc: Global, number: usize) -> Row
    ensures { result ≡ no_turns number }
{
    Row {
        number,
        many: 0,
        told: List::from_vec(Vec::new(alloc)),
    }
}

/// The row that a step goes on with, or one that it begins.
fn row_before(alloc: Global, row: Option<Row>, step: &Step) -> Row
    ensures is { result ≡ row_before row step.now }
    ensures below_4096 { result.many < 4096 }
{
    if !row_goes_on(&row, step) {
        return no_turns(alloc, step.number);
    }
    match row {
        Some(row) => row,
        None => no_turns(alloc, step.number),
    }
}

/// A row with a turn more.
///
/// An error comes only where memory was refused.
fn with_turn(alloc: Global, row: Row, step: &Step) -> Result<Row, AllocError>
    requires { row.many < 4096 }
    ensures { IfOk result (λ longer. longer ≡ with_turn row step.now) }
{
    let Row { number, many, told } = row;
    let mut told = told.into_vec();
    if let Some(text) = &step.told {
        told.push(List::from_slice(alloc, text.as_slice())?)?;
    }
    Ok(Row {
        number,
        many: many + 1,
        told: List::from_vec(told),
    })
}

/// The row with a step, where that is a turn.
///
/// An error comes only where memory was refused.
fn row_after(alloc: Global, row: Option<Row>, step: &Step) -> Result<Option<Row>, AllocError>
    ensures { IfOk result (λ after. after ≡ row_after row step.now) }
{
    if step.key.is_some() {
        return Ok(None);
    }
    let before = row_before(alloc, row, step);
    let after = with_turn(alloc, before, step)?;
    Ok(Some(after))
}

/// Adds the line of turns in a row, and what is told of them.
fn row_lines<S: Store + Drop>(
    report: &mut Report,
    region: &Region<S>,
    row: &Option<Row>,
) -> Result<(), AllocError>
    ensures { OnOk result (report.new ≡ report.old ++ row_lines region.now row.now) }
{
    let Some(row) = row else {
        return Ok(());
    };
    let name = terminal_name_at(report.alloc(), region, row.number)?;
    let many = decimal(report.alloc(), row.many)?;
    report.line(&[b"RUN", name.as_slice(), many.as_slice()])?;
    comment_lines(report, row.told.as_slice())
}

/// The key of a terminal before which so many of its keys come.
fn key_at<'a, S: Store + Drop>(
    region: &Region<S>,
    keys: &'a [KeyLine],
    number: usize,
    came: usize,
) -> Option<&'a KeyLine>
    ensures { option_copied result ≡ key_at region.now keys.now number came }
{
    let (name, _terminal) = region.terminals().get_index(number)?;
    key_of(keys, *name, came)
}

/// Adds the line of a step's key, where it is one.
fn key_line<S: Store + Drop>(
    report: &mut Report,
    region: &Region<S>,
    keys: &[KeyLine],
    step: &Step,
) -> Result<(), AllocError>
    ensures { OnOk result (report.new ≡ report.old ++ key_line region.now keys.now step.now) }
{
    let Some(came) = step.key else {
        return Ok(());
    };
    let Some(key) = key_at(region, keys, step.number, came) else {
        return Ok(());
    };
    let line = key.line.as_slice().to_vec(report.alloc())?;
    report.push(line)
}

/// Adds the lines that come before a step's row: none where the step goes on with a row.
fn step_lines<S: Store + Drop>(
    report: &mut Report,
    region: &Region<S>,
    keys: &[KeyLine],
    row: &Option<Row>,
    step: &Step,
) -> Result<(), AllocError>
    ensures { OnOk result (report.new ≡ report.old ++ step_lines region.now keys.now row.now step.now) }
{
    if row_goes_on(row, step) {
        return Ok(());
    }
    row_lines(report, region, row)?;
    key_line(report, region, keys, step)
}

/// Adds the lines of steps.
#[tactic(auto, unfolding(crate::specs::Script::steps_lines))]
fn steps_lines<S: Store + Drop>(
    report: &mut Report,
    region: &Region<S>,
    keys: &[KeyLine],
    steps: &[Step],
) -> Result<(), AllocError>
    ensures { OnOk result (report.new ≡ report.old ++ steps_lines region.now keys.now None steps.now) }
{
    let mut row = None;
    for step in steps {
        step_lines(report, region, keys, &row, step)?;
        row = row_after(report.alloc(), row, step)?;
    }
    row_lines(report, region, &row)
}

/// Adds the line that ends EDF of a terminal.
fn off_line(report: &mut Report, name: Name4) -> Result<(), AllocError>
    ensures { OnOk result (report.new ≡ report.old ++ off_line name) }
{
    let name = shown_name(report.alloc(), name)?;
    report.line(&[b"EDF", name.as_slice(), b"OFF"])
}

/// Adds the lines that end EDF of terminals.
fn off_lines(report: &mut Report, edf: &[Name4]) -> Result<(), AllocError>
    ensures { OnOk result (report.new ≡ report.old ++ flat_map off_line edf.now) }
{
    for name in edf {
        off_line(report, *name)?;
    }
    Ok(())
}

/// Adds the lines of a script that does steps, without EDF: these terminals have it on.
///
/// An error comes only where memory was refused.
#[tactic(auto, unfolding(crate::specs::Script::script_lines))]
pub fn script_lines<S: Store + Drop>(
    report: &mut Report,
    region: &Region<S>,
    keys: &[KeyLine],
    edf: &[Name4],
    steps: &[Step],
) -> Result<(), AllocError>
    ensures { OnOk result (report.new ≡ report.old ++ script_lines region.now keys.now edf.now steps.now) }
{
    off_lines(report, edf)?;
    steps_lines(report, region, keys, steps)
}
