//! TASKS.

ghost use Rattle.std.specs.Prelude.{◌≡◌, ◌∷◌, ◌++◌, ℕ, List, [], codes, map, slice_get, IfOk, OnOk, Some};
ghost use Rattle.std.specs.Option.{option_copied, option_map_or};
ghost use Rattle.cx_base.specs.Commands.{row_of};
ghost use Rattle.cx_region.specs.Sound.{IsSound};
ghost use Rattle.cx_region.specs.State.{TerminalState};
ghost use Rattle.cx_look_tasks.specs.Activities.{AreActivities, IsActivity};
ghost use Rattle.cx_look_tasks.specs.Tasks.{TasksText, activity_words, owner_name, resource_value, task_line, task_words, wait_words};
ghost use Rattle.cx_look_tasks.specs.Parts.Words.{owner_of, owner_word};
ghost use Rattle.cx_look_lines.specs.Words.{with_blanks, written_name};

use crate::activities::{Activity, Wait};
use crate::judging::activity;
use crate::lines::{TerminalLine, terminal_lines};
use cx_base::{Command, decimal, hexadecimal, shown_name};
use cx_ebcdic::{Name4, Name8};
use cx_look_lines::{Report, push_words, written_bytes, written_name};
use cx_region::{Region, Terminal, terminal_at};
use cx_region_state::Task;
use cx_service::{Hold, ResourceName};
use cx_storage::Store;
use std::alloc::{AllocError, Global};

/// What is written where there is no name.
const ABSENT: &[u8] = b"--";

/// The name of the terminal at a position.
pub(crate) fn owner_name<S: Store + Drop>(
    alloc: Global,
    region: &Region<S>,
    slot: u8,
) -> Result<Vec<u8>, AllocError>
    ensures { IfOk result (λ name. name.items ≡ owner_name region.now slot) }
{
    match terminal_at(region.terminals(), slot) {
        Some((name, _terminal)) => shown_name(alloc, name),
        None => ABSENT.to_vec(alloc),
    }
}

/// A resource by its bytes, or by its address.
pub(crate) fn resource_value(alloc: Global, name: &ResourceName) -> Result<Vec<u8>, AllocError>
    ensures { IfOk result (λ value. value.items ≡ resource_value name.now) }
{
    match name {
        ResourceName::Bytes(bytes) => written_bytes(alloc, bytes.as_slice()),
        ResourceName::Address(place) => hexadecimal::<6>(*place).to_vec(alloc),
    }
}

/// The resource that a task waits for.
fn resource_word(alloc: Global, name: &Option<ResourceName>) -> Result<Vec<u8>, AllocError>
    ensures { IfOk result (λ word. word.items ≡ option_map_or resource_value name.now (codes "--")) }
{
    match name {
        Some(name) => resource_value(alloc, name),
        None => ABSENT.to_vec(alloc),
    }
}

/// Who holds a resource.
fn owner_of<S: Store + Drop>(region: &Region<S>, name: &Option<ResourceName>) -> Option<Hold>
    ensures { result ≡ owner_of region.now name.now }
{
    let name = name.as_ref()?;
    region.shared().enqueues.hold(name)
}

/// The terminal whose task owns a resource.
fn owner_word<S: Store + Drop>(
    alloc: Global,
    region: &Region<S>,
    name: &Option<ResourceName>,
) -> Result<Vec<u8>, AllocError>
    ensures { IfOk result (λ word. word.items ≡ owner_word region.now name.now) }
{
    match owner_of(region, name) {
        Some(hold) => owner_name(alloc, region, hold.owner),
        None => ABSENT.to_vec(alloc),
    }
}

/// The queue in which there is no room.
fn queue_word(alloc: Global, name: Option<Name8>) -> Result<Vec<u8>, AllocError>
    ensures { IfOk result (λ word. word.items ≡ option_map_or written_name name (codes "--")) }
{
    match name {
        Some(name) => written_name(alloc, &name.bytes()),
        None => ABSENT.to_vec(alloc),
    }
}

/// The name of a command; a question mark for one that can't be read. It takes no memory.
pub fn command_word(command: Option<Command>) -> &'static [u8]
    ensures { result.now ≡ option_map_or (λ it. (row_of it).name) command (codes "?") }
{
    match command {
        Some(command) => command.name().as_bytes(),
        None => b"?",
    }
}

/// Adds a resource that is waited for, and who owns it.
fn push_resource<S: Store + Drop>(
    text: &mut Vec<u8>,
    alloc: Global,
    region: &Region<S>,
    name: &Option<ResourceName>,
) -> Result<(), AllocError>
    ensures { let words = wait_words region.now (Wait.Resource name.now) in
        OnOk result (text.new.items ≡ text.old.items ++ with_blanks words) }
{
    let resource = resource_word(alloc, name)?;
    let owner = owner_word(alloc, region, name)?;
    push_words(
        text,
        &[b"RESOURCE", resource.as_slice(), b"OWNER", owner.as_slice()],
    )
}

/// Adds a queue in which there is no room.
fn push_queue<S: Store + Drop>(
    text: &mut Vec<u8>,
    alloc: Global,
    region: &Region<S>,
    name: Option<Name8>,
) -> Result<(), AllocError>
    ensures { OnOk result (text.new.items ≡ text.old.items ++ with_blanks (wait_words region.now (Wait.Room name))) }
{
    let queue = queue_word(alloc, name)?;
    push_words(text, &[b"ROOM IN QUEUE", queue.as_slice()])
}

/// Adds what a task waits for.
fn push_wait<S: Store + Drop>(
    text: &mut Vec<u8>,
    alloc: Global,
    region: &Region<S>,
    wait: &Wait,
) -> Result<(), AllocError>
    ensures { OnOk result (text.new.items ≡ text.old.items ++ with_blanks (wait_words region.now wait.now)) }
{
    match wait {
        Wait::Input => push_words(text, &[b"INPUT"]),
        Wait::Resource(name) => push_resource(text, alloc, region, name),
        Wait::Room(name) => push_queue(text, alloc, region, *name),
        Wait::Storage => push_words(text, &[b"STORAGE"]),
    }
}

/// Adds what a task is doing.
#[tactic(auto, using(cx_look_lines::specs::Facts::Spaced::spaced_first))]
pub(crate) fn push_activity<S: Store + Drop>(
    text: &mut Vec<u8>,
    alloc: Global,
    region: &Region<S>,
    activity: &Activity,
) -> Result<(), AllocError>
    ensures { OnOk result (text.new.items ≡ text.old.items ++ with_blanks (activity_words region.now activity.now)) }
{
    match activity {
        Activity::NoTask => push_words(text, &[b"NO TASK"]),
        Activity::Running => push_words(text, &[b"RUNNING"]),
        Activity::Due(command) => push_words(text, &[b"DUE", command_word(*command)]),
        Activity::Waiting(wait) => {
            push_words(text, &[b"WAITING FOR"])?;
            push_wait(text, alloc, region, wait)
        }
    }
}

/// Adds a task's transaction, its number, and the number of its levels.
fn push_task(text: &mut Vec<u8>, alloc: Global, task: Option<&Task>) -> Result<(), AllocError>
    ensures { OnOk result (text.new.items ≡ text.old.items ++ with_blanks (task_words (option_copied task.entry))) }
{
    let Some(task) = task else {
        return Ok(());
    };
    let tran = shown_name(alloc, task.tran)?;
    let number = decimal::<7>(task.number);
    let levels = decimal::<2>(task.levels.len() as u32);
    push_words(
        text,
        &[tran.as_slice(), b"TASK", &number, b"LEVEL", &levels],
    )
}

/// Adds the line of a terminal.
#[tactic(auto, unfolding(crate::specs::Tasks::task_line), using(cx_look_lines::specs::Facts::Spaced::spaced_both))]
pub(crate) fn task_line<S: Store + Drop>(
    report: &mut Report,
    region: &Region<S>,
    name: Name4,
    terminal: &Terminal,
    activity: &Activity,
) -> Result<(), AllocError>
    ensures { let line = task_line region.now (name, terminal.now) activity.now in
        OnOk result (report.new ≡ report.old ++ line) }
{
    let alloc = report.alloc();
    let mut line = shown_name(alloc, name)?;
    push_task(&mut line, alloc, terminal.task())?;
    push_activity(&mut line, alloc, region, activity)?;
    report.push(line)
}

/// What the task of the terminal at an index is doing.
fn activity_at<S: Store + Drop>(region: &Region<S>, index: usize) -> Activity
    requires { IsSound region.now }
    ensures { let due = slice_get region.now.terminals index in
        (entry : List ℕ × TerminalState) → due ≡ Some entry → IsActivity region.now entry.1 result }
{
    match region.terminals().get_index(index) {
        Some((_name, terminal)) => activity(region, terminal),
        None => Activity::NoTask,
    }
}

/// What the task of each terminal is doing, in the order of their definition.
///
/// An error comes only where memory for it was refused.
pub fn activities_in<S: Store + Drop>(
    alloc: Global,
    region: &Region<S>,
) -> Result<Vec<Activity>, AllocError>
    requires { IsSound region.now }
    ensures { IfOk result (λ all. AreActivities region.now region.now.terminals all.items) }
{
    let mut all = Vec::new(alloc);
    for i in 0..region.terminals().len() {
        let activity = activity_at(region, i);
        all.push(activity)?;
    }
    Ok(all)
}

/// A line for each terminal, in the order of their definition: its task, and what that is doing; NONE where there is no
/// terminal.
///
/// An error comes only where memory for it was refused.
pub fn tasks_text<S: Store + Drop>(alloc: Global, region: &Region<S>) -> Result<Report, AllocError>
    requires { IsSound region.now }
    ensures { IfOk result (λ report. TasksText region.now report) }
{
    let activities = activities_in(alloc, region)?;
    let mut report = Report::new(alloc);
    terminal_lines(
        &mut report,
        region,
        &TerminalLine::Task,
        activities.as_slice(),
    )?;
    report.or_none(b"TASKS")
}
