//! What is kept of a terminal's task before an event that may lead to an abend.
ghost use Rattle.std.specs.Prelude.{◌≡◌, [], IfOk, MatchOption, OnErr, None, is_some, true};
ghost use Rattle.cx_region.specs.Tables.{task_of};
ghost use Rattle.cx_look_abend.specs.Abends.{before_turn, due_arguments, kept_task};
ghost use Rattle.cx_look_abend.specs.Noting.{takes_room, task_before};
ghost use Rattle.cx_look_abend.specs.Parts.Sources.{IsSourceAt, IsSourceOf, no_source};

use crate::abends::{TaskBefore, kept_task};
use crate::dumps::DumpBefore;
use cx_ebcdic::Name4;
use cx_edf::EdfEvent;
use cx_look_fields::task_of;
use cx_look_lines::Report;
use cx_look_tasks::call_text;
use cx_region::{Event, Region};
use cx_region_state::{Task, read_call};
use cx_storage::{Store, address_in};
use std::alloc::{AllocError, Global};

/// The arguments of a task's command, where one is due and its list can be read.
#[tactic(auto, unfolding(crate::specs::Abends::due_arguments))]
fn due_arguments<S: Store>(alloc: Global, store: &S, task: &Task) -> Result<Report, AllocError>
    ensures { IfOk result (λ report. report ≡ due_arguments (S.storage store.now) task.now) }
{
    if !task.due {
        return Ok(Report::new(alloc));
    }
    match read_call(store, address_in(task.cpu.regs[1])) {
        Ok(call) => call_text(alloc, store, &call),
        Err(_fault) => Ok(Report::new(alloc)),
    }
}

/// What is kept of a terminal's task before a turn.
fn before_turn<S: Store + Drop>(region: &Region<S>, name: Name4) -> Result<TaskBefore, AllocError>
    ensures value { IfOk result (λ before. before ≡ before_turn region.now name) }
    ensures memory { OnErr result (is_some (task_of region.now name) ≡ true) }
{
    let shared = region.shared();
    let kept = kept_task(region, name);
    let arguments = match task_of(region, name) {
        Some(task) => due_arguments(shared.alloc, &shared.store, task)?,
        None => Report::new(shared.alloc),
    };
    Ok(TaskBefore {
        task: kept,
        arguments,
    })
}

/// What is kept of a terminal's task before what an operator does.
fn before_operator<S: Store + Drop>(region: &Region<S>, name: Name4) -> TaskBefore
    ensures { result ≡ record { task = kept_task region.now name; arguments = [] } }
{
    TaskBefore {
        task: kept_task(region, name),
        arguments: Report::new(region.shared().alloc),
    }
}

/// What is kept, before an event, of the task of the terminal that it names.
///
/// An error comes only where memory for it was refused.
#[tactic(auto, unfolding(crate::specs::Noting::task_before))]
pub(crate) fn task_before<S: Store + Drop>(
    region: &Region<S>,
    event: &EdfEvent,
) -> Result<TaskBefore, AllocError>
    ensures value { IfOk result (λ before. before ≡ task_before region.now event.now) }
    ensures memory { OnErr result (takes_room region.now event.now ≡ true) }
{
    match event {
        EdfEvent::Plain(Event::Turn(name)) => before_turn(region, *name),
        EdfEvent::Plain(Event::Alter(name, _) | Event::Key(name, _, _)) => {
            Ok(before_operator(region, *name))
        }
        _ => Ok(TaskBefore {
            task: None,
            arguments: Report::new(region.shared().alloc),
        }),
    }
}

/// What is kept, before a turn, for the DFHEISTG at an abend to which it leads.
fn dump_before_turn<S: Store + Drop>(
    region: &Region<S>,
    name: Name4,
) -> Result<DumpBefore, AllocError>
    ensures value { IfOk result (λ source. MatchOption (task_of region.now name) (source ≡ no_source)
        (λ task. IsSourceOf region.now.shared.storage task source)) }
    ensures memory { OnErr result (is_some (task_of region.now name) ≡ true) }
{
    let shared = region.shared();
    match task_of(region, name) {
        Some(task) => DumpBefore::of_task(shared.alloc, &shared.store, task),
        None => Ok(DumpBefore::none()),
    }
}

/// What is kept, before an event, for the DFHEISTG at an abend to which it leads.
///
/// An error comes only where memory for it was refused.
#[tactic(auto, unfolding(crate::specs::Parts::Sources::IsSourceAt))]
pub(crate) fn dump_before<S: Store + Drop>(
    region: &Region<S>,
    event: &EdfEvent,
) -> Result<DumpBefore, AllocError>
    ensures value { IfOk result (λ source. IsSourceAt region.now event.now source) }
    ensures memory { OnErr result (takes_room region.now event.now ≡ true) }
{
    match event {
        EdfEvent::Plain(Event::Turn(name)) => dump_before_turn(region, *name),
        _ => Ok(DumpBefore::none()),
    }
}
