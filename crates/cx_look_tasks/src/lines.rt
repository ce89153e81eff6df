//! The lines of terminals, one after another.

ghost use Rattle.std.specs.Prelude.{◌≡◌, ◌++◌, slice_get, OnOk};
ghost use Rattle.cx_look_tasks.specs.Parts.Words.{line_of, of_one};
ghost use Rattle.cx_look_tasks.specs.Tasks.{of_each};

use crate::activities::Activity;
use crate::resources::{waiter_line, waits_for};
use crate::tasks::task_line;
use crate::waits::waiting_line;
use cx_look_lines::Report;
use cx_region::Region;
use cx_service::ResourceName;
use cx_storage::Store;
use std::alloc::AllocError;

/// What is written of a terminal.
#[derive(Drop)]
pub(crate) enum TerminalLine {
    /// Its task, and what that is doing.
    Task,
    /// Its task, where that waits, and for what.
    Waiting,
    /// That its task waits for this resource, where it does.
    Waiter(ResourceName),
}

/// Adds the line of the terminal at an index, where there is one.
#[tactic(auto, unfolding(crate::specs::Tasks::waiter_text))]
fn line_at<S: Store + Drop>(
    report: &mut Report,
    region: &Region<S>,
    line: &TerminalLine,
    index: usize,
    activity: &Activity,
) -> Result<(), AllocError>
    ensures { let due = slice_get region.now.terminals index in
        OnOk result (report.new ≡ report.old ++ of_one (λ entry. line_of region.now line.now entry activity.now) due) }
{
    let Some((name, terminal)) = region.terminals().get_index(index) else {
        return Ok(());
    };
    match line {
        TerminalLine::Task => task_line(report, region, *name, terminal, activity),
        TerminalLine::Waiting => waiting_line(report, region, *name, terminal, activity),
        TerminalLine::Waiter(resource) => {
            if !waits_for(resource, activity) {
                return Ok(());
            }
            waiter_line(report, resource, *name)
        }
    }
}

/// Adds the lines of all terminals, in the order of their definition, by what their tasks are doing.
pub(crate) fn terminal_lines<S: Store + Drop>(
    report: &mut Report,
    region: &Region<S>,
    line: &TerminalLine,
    activities: &[Activity],
) -> Result<(), AllocError>
    ensures { let more = of_each (line_of region.now line.now) region.now.terminals activities.now in
        OnOk result (report.new ≡ report.old ++ more) }
{
    for (i, activity) in activities.iter().enumerate() {
        line_at(report, region, line, i, activity)?;
    }
    Ok(())
}
