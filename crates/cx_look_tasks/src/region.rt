//! The command that is due at a terminal.

ghost use Rattle.std.specs.Prelude.{◌≡◌, [], ◌∷◌, codes, IfOk};
ghost use Rattle.std.specs.Option.{option_copied};
ghost use Rattle.cx_look_tasks.specs.Looks.{command_text, due_text, command_look_line};
ghost use Rattle.cx_look_tasks.specs.Parts.Words.{task_due};

use crate::words::call_text;
use cx_base::shown_name;
use cx_ebcdic::Name4;
use cx_look_lines::Report;
use cx_region::Region;
use cx_region_state::{Task, read_call};
use cx_storage::{Store, address_in};
use std::alloc::{AllocError, Global};

/// The line of a terminal of which one word says all.
fn command_look_line(alloc: Global, name: Name4, word: &[u8]) -> Result<Report, AllocError>
    ensures { IfOk result (λ report. report ≡ command_look_line name word.now) }
{
    let name = shown_name(alloc, name)?;
    Report::of_line(alloc, &[b"COMMAND", name.as_slice(), word])
}

/// The command that a task's argument list gives.
#[tactic(auto, unfolding(crate::specs::Looks::due_text))]
fn due_text<S: Store>(
    alloc: Global,
    store: &S,
    name: Name4,
    task: &Task,
) -> Result<Report, AllocError>
    ensures { IfOk result (λ report. report ≡ due_text (S.storage store.now) name task.now) }
{
    match read_call(store, address_in(task.cpu.regs[1])) {
        Ok(call) => call_text(alloc, store, &call),
        Err(_fault) => command_look_line(alloc, name, b"?"),
    }
}

/// The task of a terminal whose command is due.
fn task_due<S: Store + Drop>(region: &Region<S>, name: Name4) -> Option<&Task>
    ensures { option_copied result ≡ task_due region.now name }
{
    let terminal = region.terminals().get(&name)?;
    let task = terminal.task()?;
    if task.due { Some(task) } else { None }
}

/// The command that is due at a terminal as a source writes it, and a line for each of its inputs; `?` where its
/// argument list can't be read, NONE where no command is due, no task or no such terminal.
///
/// An error comes only where memory for them was refused.
#[tactic(auto, unfolding(crate::specs::Looks::command_text))]
pub fn command_text<S: Store + Drop>(
    alloc: Global,
    region: &Region<S>,
    name: Name4,
) -> Result<Report, AllocError>
    ensures { IfOk result (λ report. report ≡ command_text region.now name) }
{
    match task_due(region, name) {
        Some(task) => due_text(alloc, &region.shared().store, name, task),
        None => command_look_line(alloc, name, b"NONE"),
    }
}
