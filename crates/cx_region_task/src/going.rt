//! How a task goes on after a command.
ghost use Rattle.std.specs.Prelude.{◌≡◌, ◌≢◌, ◌<◌, ◌^◌, ◌||◌, [], false, Some, None, length};
ghost use Rattle.cx_base.specs.declared.conditions.Condition.TheVariants.{Error};
ghost use Rattle.cx_base.specs.Arguments.{has_option};
ghost use Rattle.cx_storage.specs.Address.{address_in};
ghost use Rattle.cx_program.specs.Handles.{choice as choice_by, condition_waits};
ghost use Rattle.cx_program.specs.Levels.{with_called_level};
ghost use Rattle.cx_region_state.specs.Areas.{IsSoundProgram};
ghost use Rattle.cx_region_state.specs.State.{context};
ghost use Rattle.cx_region_task.specs.Abends.{task_ended, without_stg};
ghost use Rattle.cx_region_task.specs.Continuations.{Goes, at_entry, at_label, at_next, choice_for, choice_unhandled, enter_level, gone_on, is_normal, is_wait, on_its_way, replace_level, return_to_caller, returned_to, continuation_by, continuation_chosen, continuation_of, without_wait};
ghost use Rattle.cx_region_task.specs.Parts.Making.{MatchWay, with_kept};

use crate::abending::{abend, end_task, free_stg};
use crate::areas::{entry_level, entry_registers};
use crate::continuation::Continuation;
use cx_base::{Condition, OptionName};
use cx_exec::Cpu;
use cx_program::{Choice, HandleTable, Level};
use cx_region_state::{Call, NewLevel, Shared, Task, TaskChange, TerminalEntry, TurnReply};
use cx_storage::{Store, address_in};

/// The choice where the entries aren't looked at.
fn choice_unhandled(condition: Condition) -> Choice
    ensures { result ≡ choice_unhandled condition }
{
    match condition {
        Condition::Nospace | Condition::Nostg | Condition::Enqbusy => Choice::Wait,
        _ => Choice::GoOn,
    }
}

/// The choice for a condition that is met.
#[tactic(auto, unfolding(crate::specs::Continuations::choice_for))]
fn choice_for(call: &Call, handles: &HandleTable, condition: Condition) -> Choice
    requires exceptional { condition ≢ Condition.Normal }
    requires not_error { condition ≢ Condition.Error }
    ensures { result ≡ choice_for call.now handles.now.active.entries condition }
{
    let unhandled = call.has_nohandle() || call.resp().is_some();
    let chosen = if unhandled {
        choice_unhandled(condition)
    } else {
        handles.choose(condition)
    };
    match (call.has(OptionName::Nosuspend), chosen) {
        (true, Choice::Wait) => Choice::GoOn,
        _ => chosen,
    }
}

/// The way of a change where no condition is met.
fn continuation_by(change: &TaskChange) -> Continuation
    ensures { result ≡ continuation_by change.now }
{
    match change {
        TaskChange::Enters(level) => Continuation::Enters(*level),
        TaskChange::Replaces(_copying, level) => Continuation::Replaces(*level),
        TaskChange::LevelEnds => Continuation::LevelEnds,
        TaskChange::TaskEnds(_next) => Continuation::TaskEnds,
        TaskChange::AbendsWith(code, cancel) => Continuation::Abends(*code, *cancel),
        _ => Continuation::GoesOn,
    }
}

/// Whether the command waits: its task stays at it.
pub(crate) fn is_wait(continuation: &Continuation) -> bool
    ensures { result ≡ is_wait continuation.now }
{
    matches!(continuation, Continuation::Waits)
}

/// How a task goes on after a command that meets a condition and has an effect: as its current level asked, or, with no
/// condition met, as the effect says. The condition mustn't be ERROR, which no command meets.
#[tactic(auto, unfolding(crate::specs::Continuations::continuation_of))]
pub(crate) fn continuation_at(
    call: &Call,
    condition: Condition,
    change: &TaskChange,
    task: &Task,
) -> Continuation
    requires { condition ≢ Condition.Error }
    ensures { result ≡ continuation_of call.now task.now.levels.current.handles.active.entries condition change.now }
{
    if condition == Condition::Normal {
        return continuation_by(change);
    }
    let level = task.levels.current();
    match choice_for(call, &level.handles, condition) {
        Choice::Label(label) => Continuation::TakesLabel(label),
        Choice::GoOn => Continuation::GoesOn,
        Choice::Wait => Continuation::Waits,
        Choice::Abend(code) => Continuation::Abends(code, false),
    }
}

/// The task is at an address, and no command is due.
fn go_to(task: &mut Task, next: u32)
    requires { next < 2 ^ 24 }
    ensures { task.new ≡ at_next task.old next }
{
    task.cpu.next = next;
    task.due = false;
}

/// The registers, the code and the next address at the entry to a level's program.
fn start(task: &mut Task, level: &NewLevel)
    requires { level.now.loaded.entry < 2 ^ 24 }
    ensures { task.new ≡ at_entry task.old level.now task.old.levels }
{
    task.cpu = Cpu {
        regs: entry_registers(level, task.eib),
        cc: 0,
        next: level.loaded.entry,
    };
    task.due = false;
}

/// LINK: the level begins under the current one.
#[tactic(auto, unfolding(crate::specs::Continuations::enter_level))]
fn enter<S: Store + Drop>(
    shared: &Shared<S>,
    terminal_entry: &TerminalEntry,
    task: &mut Task,
    level: &NewLevel,
)
    requires entry { level.now.loaded.entry < 2 ^ 24 }
    requires below_15 { length task.old.levels.callers < 15 }
    ensures { context shared.now terminal_entry.now task.new
        ≡ enter_level level.now (context shared.now terminal_entry.now task.old) }
{
    push_level(task, entry_level(level, task.eib));
    start(task, level);
}

/// A level under the current one.
fn push_level(task: &mut Task, level: Level)
    requires { length task.old.levels.callers < 15 }
    ensures { task.new ≡ record task.old { levels = with_called_level task.old.levels level } }
{
    match task.levels.enter(level) {
        Ok(_done) => (),
        Err(_refused) => (),
    }
}

/// XCTL: the level begins in place of the current one.
#[tactic(auto, unfolding(crate::specs::Continuations::replace_level))]
fn replace<S: Store + Drop>(
    shared: &mut Shared<S>,
    terminal_entry: &TerminalEntry,
    task: &mut Task,
    level: &NewLevel,
)
    requires { level.now.loaded.entry < 2 ^ 24 }
    ensures { context shared.new terminal_entry.now task.new
        ≡ replace_level level.now (context shared.old terminal_entry.now task.old) }
{
    free_stg(&mut shared.store, task.levels.current().stg);
    let begun = entry_level(level, task.eib);
    *task.levels.current_mut() = begun;
    start(task, level);
}

/// RETURN: the current level ends.
#[tactic(auto, unfolding(crate::specs::Continuations::return_to_caller))]
fn return_to<S: Store + Drop>(
    shared: &mut Shared<S>,
    terminal_entry: &TerminalEntry,
    task: &mut Task,
)
    ensures { context shared.new terminal_entry.now task.new
        ≡ return_to_caller (context shared.old terminal_entry.now task.old) }
{
    let Some(level) = task.levels.leave() else {
        return;
    };
    free_stg(&mut shared.store, level.stg);
    resume(task);
}

/// The level that is the current one again goes on with the registers and code that it kept.
fn resume(task: &mut Task)
    ensures { task.new ≡ gone_on (with_kept task.old task.old.levels.current) }
{
    let level = task.levels.current();
    let regs = level.regs;
    let cc = level.cc.number();
    let next = address_in(regs[14]);
    task.cpu = Cpu { regs, cc, next };
    task.due = false;
}

/// The task goes its way.
#[tactic(auto, unfolding(crate::specs::Continuations::Goes))]
pub(crate) fn go<S: Store + Drop>(
    continuation: &Continuation,
    condition: Condition,
    shared: &mut Shared<S>,
    terminal_entry: &mut TerminalEntry,
    task: &mut Task,
) -> TurnReply
    requires { MatchWay continuation.now task.old.levels }
    ensures { let before = context shared.old terminal_entry.old task.old in
        let after = context shared.new terminal_entry.new task.new in
        Goes continuation.now condition before result after }
{
    match continuation {
        Continuation::GoesOn => {
            go_to(task, address_in(task.cpu.regs[14]));
            TurnReply::Performed(condition)
        }
        Continuation::TakesLabel(label) => {
            go_to(task, address_in(*label));
            TurnReply::TookLabel(condition)
        }
        Continuation::Waits => TurnReply::Waiting,
        Continuation::Abends(code, cancel) => abend(shared, terminal_entry, task, *code, *cancel),
        Continuation::Enters(level) => {
            enter(shared, terminal_entry, task, level);
            TurnReply::Entered
        }
        Continuation::Replaces(level) => {
            replace(shared, terminal_entry, task, level);
            TurnReply::Entered
        }
        Continuation::LevelEnds => {
            return_to(shared, terminal_entry, task);
            TurnReply::Returned
        }
        Continuation::TaskEnds => {
            end_task(shared, terminal_entry, task);
            TurnReply::Ended
        }
    }
}
