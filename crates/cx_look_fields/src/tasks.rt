//! TASK.
ghost use Rattle.std.specs.Prelude.{◌≡◌, ◌++◌, IfOk, OnOk};
ghost use Rattle.std.specs.Option.{option_copied};
ghost use Rattle.cx_region.specs.Tables.{task_of};
ghost use Rattle.cx_look_fields.specs.Tasks.{due_word, task_line, task_text, task_lines_of};
ghost use Rattle.cx_look_fields.specs.Parts.Tasks.{cc_next_line, no_task_line, task_words};

use crate::levels::levels_text;
use cx_base::{decimal, shown_name};
use cx_ebcdic::Name4;
use cx_look_lines::{Report, register_lines};
use cx_look_symbols::{SourcePlaces, Sources, place_at_address, place_word};
use cx_region::Region;
use cx_region_state::{Shared, Task, read_call};
use cx_storage::{Store, address_in};
use std::alloc::{AllocError, Global};

/// What a task is doing: running, or the command that is due.
#[tactic(auto, unfolding(crate::specs::Tasks::due_word))]
fn due_word<S: Store>(alloc: Global, store: &S, task: &Task) -> Result<Vec<u8>, AllocError>
    ensures { IfOk result (λ word. word.items ≡ due_word (S.storage store.now) task.now) }
{
    if !task.due {
        return b"RUNNING".to_vec(alloc);
    }
    let mut word = b"DUE ".to_vec(alloc)?;
    match read_call(store, address_in(task.cpu.regs[1])) {
        Ok(call) => word.extend_from_slice(call.command().name().as_bytes())?,
        Err(_fault) => word.push(b'?')?,
    }
    Ok(word)
}

/// Adds the task's line, with the word that says what it is doing.
fn task_words(report: &mut Report, name: Name4, task: &Task, due: &[u8]) -> Result<(), AllocError>
    ensures { OnOk result (report.new ≡ report.old ++ task_words name task.now due.now) }
{
    let name = shown_name(report.alloc(), name)?;
    let tran = shown_name(report.alloc(), task.tran)?;
    let number = decimal::<7>(task.number);
    report.line(&[b"TASK", &name, b"TRAN", &tran, b"NUMBER", &number, due])
}

/// Adds the task's line.
fn task_line<S: Store + Drop>(
    report: &mut Report,
    shared: &Shared<S>,
    name: Name4,
    task: &Task,
) -> Result<(), AllocError>
    ensures { OnOk result (report.new ≡ report.old ++ task_line shared.now name task.now) }
{
    let due = due_word(report.alloc(), &shared.store, task)?;
    task_words(report, name, task, &due)
}

/// Adds the line of a task's condition code and next address.
fn cc_next_line<S: Store + Drop>(
    report: &mut Report,
    sources: &SourcePlaces,
    shared: &Shared<S>,
    task: &Task,
) -> Result<(), AllocError>
    ensures { OnOk result (report.new ≡ report.old ++ cc_next_line sources.now.entries shared.now task.now) }
{
    let cc = decimal::<1>(u32::from(task.cpu.cc));
    let place = place_at_address(&shared.programs, task.cpu.next);
    let place = place_word(report.alloc(), sources, &place)?;
    report.line(&[b"CC", &cc, b"NEXT", &place])
}

/// Adds the lines of a task.
fn task_lines_of<S: Store + Drop>(
    report: &mut Report,
    sources: &Sources,
    shared: &Shared<S>,
    name: Name4,
    task: &Task,
) -> Result<(), AllocError>
    ensures { OnOk result (report.new ≡ report.old ++ task_lines_of sources.now shared.now name task.now) }
{
    task_line(report, shared, name, task)?;
    register_lines(report, &task.cpu.regs)?;
    cc_next_line(report, sources.places(), shared, task)?;
    levels_text(report, sources, shared, &task.levels)
}

/// Adds the line of a terminal without a task.
fn no_task_line(report: &mut Report, name: Name4) -> Result<(), AllocError>
    ensures { OnOk result (report.new ≡ report.old ++ no_task_line name) }
{
    let name = shown_name(report.alloc(), name)?;
    report.line(&[b"TASK", &name, b"NONE"])
}

/// The task of a terminal; None where there is no task, or no such terminal. It takes no memory.
pub fn task_of<S: Store + Drop>(region: &Region<S>, name: Name4) -> Option<&Task>
    ensures { option_copied result ≡ task_of region.now name }
{
    let terminal = region.terminals().get(&name)?;
    terminal.task()
}

/// Looks at the task of a terminal: its line, its registers, its condition code and next address, and the lines of each
/// level, the highest first; NONE where there is no task, or no such terminal. A place in a program that a source
/// defined is shown with the line of the statement whose bytes hold it, and a level's last command with that line's
/// text.
///
/// An error comes only where memory for the report was refused.
#[tactic(auto, unfolding(crate::specs::Tasks::task_text))]
pub fn task_text<S: Store + Drop>(
    alloc: Global,
    sources: &Sources,
    region: &Region<S>,
    name: Name4,
) -> Result<Report, AllocError>
    ensures { IfOk result (λ report. report ≡ task_text sources.now region.now name) }
{
    let mut report = Report::new(alloc);
    match task_of(region, name) {
        Some(task) => task_lines_of(&mut report, sources, region.shared(), name, task)?,
        None => no_task_line(&mut report, name)?,
    }
    Ok(report)
}
