//! The tasks that wait.

ghost use Rattle.std.specs.Prelude.{◌≡◌, ◌++◌, IfOk, OnOk};
ghost use Rattle.std.specs.Option.{option_copied};
ghost use Rattle.cx_region.specs.Sound.{IsSound};
ghost use Rattle.cx_look_tasks.specs.Tasks.{WaitsText, waiting_line, waiting_words};
ghost use Rattle.cx_look_lines.specs.Words.{with_blanks};

use crate::activities::Activity;
use crate::lines::{TerminalLine, terminal_lines};
use crate::tasks::{activities_in, push_activity};
use cx_base::{decimal, shown_name};
use cx_ebcdic::Name4;
use cx_look_lines::{Report, push_words};
use cx_region::{Region, Terminal};
use cx_region_state::Task;
use cx_storage::Store;
use std::alloc::{AllocError, Global};

/// Adds a task's transaction, and the number of its levels.
fn push_waiting(text: &mut Vec<u8>, alloc: Global, task: Option<&Task>) -> Result<(), AllocError>
    ensures { OnOk result (text.new.items ≡ text.old.items ++ with_blanks (waiting_words (option_copied task.entry))) }
{
    let Some(task) = task else {
        return Ok(());
    };
    let tran = shown_name(alloc, task.tran)?;
    let levels = decimal::<2>(task.levels.len() as u32);
    push_words(text, &[tran.as_slice(), b"LEVEL", &levels])
}

/// Adds the line of a terminal, where its task waits.
#[tactic(auto, unfolding(crate::specs::Tasks::waiting_line), using(cx_look_lines::specs::Facts::Spaced::spaced_both))]
pub(crate) fn waiting_line<S: Store + Drop>(
    report: &mut Report,
    region: &Region<S>,
    name: Name4,
    terminal: &Terminal,
    activity: &Activity,
) -> Result<(), AllocError>
    ensures { let line = waiting_line region.now (name, terminal.now) activity.now in
        OnOk result (report.new ≡ report.old ++ line) }
{
    if !activity.is_waiting() {
        return Ok(());
    }
    let alloc = report.alloc();
    let mut line = shown_name(alloc, name)?;
    push_waiting(&mut line, alloc, terminal.task())?;
    push_activity(&mut line, alloc, region, activity)?;
    report.push(line)
}

/// A line for each terminal whose task waits, none where no task does: its transaction, how many levels it has, and
/// what it waits for, as in the line that `tasks_text` writes of it.
///
/// An error comes only where memory for it was refused.
pub fn waits_text<S: Store + Drop>(alloc: Global, region: &Region<S>) -> Result<Report, AllocError>
    requires { IsSound region.now }
    ensures { IfOk result (λ report. WaitsText region.now report) }
{
    let activities = activities_in(alloc, region)?;
    let mut report = Report::new(alloc);
    terminal_lines(
        &mut report,
        region,
        &TerminalLine::Waiting,
        activities.as_slice(),
    )?;
    Ok(report)
}
