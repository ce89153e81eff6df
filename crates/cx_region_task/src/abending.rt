//! Abends, and the end of tasks.
ghost use Rattle.std.specs.Prelude.{◌≡◌, ◌-◌, ◌<◌, ◌≤◌, ◌^◌, None, Some, IfSome, OnSome, length, reverse, unwrap_or};
ghost use Rattle.cx_storage.specs.Storage.{starts_elsewhere, with_areas_kept};
ghost use Rattle.cx_storage.specs.Address.{address_in};
ghost use Rattle.cx_program.specs.Entries.{label_on};
ghost use Rattle.cx_program.specs.Levels.{IsNearestExit, all_levels};
ghost use Rattle.cx_region_state.specs.State.{context};
ghost use Rattle.cx_region_task.specs.Abends.{Abends, AbendsAt, IsExit, end_without_next, exit_storage, exit_taken, exit_task, task_ended, unwound, without_stg};

use cx_ebcdic::Name4;
use cx_exec::Cpu;
use cx_program::{Level, LevelStack};
use cx_region_state::eib::put_calen;
use cx_region_state::{Shared, Task, TerminalEntry, TurnReply};
use cx_storage::{Store, address_in};

/// Frees the area of a level's DFHEISTG.
pub(crate) fn free_stg<S: Store>(store: &mut S, stg: u32)
    ensures { S.storage store.new ≡ with_areas_kept (starts_elsewhere (address_in stg)) (S.storage store.old) }
{
    store.free_area(address_in(stg));
}

/// Ends `count` levels, the current one first, and frees each one's DFHEISTG.
#[tactic(auto, using(crate::proofs::UnwindLemmas::unwound_step, crate::proofs::UnwindLemmas::unwound_end, crate::proofs::UnwindLemmas::unwound_none))]
fn unwind<S: Store>(store: &mut S, levels: &mut LevelStack, count: usize)
    ensures { unwound count levels.old.callers levels.old.current (S.storage store.old)
        ≡ record { levels = levels.new; storage = S.storage store.new } }
{
    for _level in 0..count {
        let Some(level) = levels.leave() else {
            return;
        };
        free_stg(store, level.stg);
    }
}

/// The exit of the level at an index takes an abend.
#[tactic(auto, unfolding(crate::specs::Abends::exit_storage, crate::specs::Abends::exit_task))]
fn take_exit<S: Store>(store: &mut S, task: &mut Task, index: usize)
    ensures storage { S.storage store.new ≡ exit_storage index task.old (S.storage store.old) }
    ensures task { task.new ≡ exit_task index task.old (S.storage store.old) }
{
    let count = (task.levels.len() - 1).saturating_sub(index);
    unwind(store, &mut task.levels, count);
    let level = task.levels.current_mut();
    let label = level.handles.exit().unwrap_or(0);
    let calen = level.calen;
    let mut regs = level.regs;
    regs[15] = label;
    let cc = level.cc.number();
    level.handles.exit_off();
    task.cpu = Cpu {
        regs,
        cc,
        next: address_in(label),
    };
    task.due = false;
    put_calen(store, task.eib, Some(calen));
}

/// The end of a task: its areas are freed, its resources released, its held input dropped.
pub(crate) fn end_task<S: Store + Drop>(
    shared: &mut Shared<S>,
    terminal_entry: &mut TerminalEntry,
    task: &Task,
)
    ensures { context shared.new terminal_entry.new task.now
        ≡ task_ended (context shared.old terminal_entry.old task.now) }
{
    shared.store.free_slot(terminal_entry.slot);
    shared.enqueues.release_all(terminal_entry.slot);
    terminal_entry.input = None;
}

/// Ends a task by an abend that no exit takes: its areas are freed, its resources released, its held input dropped, and
/// the terminal has no next transaction.
pub fn end_by_abend<S: Store + Drop>(
    shared: &mut Shared<S>,
    terminal_entry: &mut TerminalEntry,
    task: &Task,
)
    ensures { context shared.new terminal_entry.new task.now
        ≡ end_without_next (context shared.old terminal_entry.old task.now) }
{
    end_task(shared, terminal_entry, task);
    terminal_entry.following = None;
}

/// A task abends: the nearest exit takes it, or the task ends; no exit is looked at where the flag says so.
#[tactic(auto, unfolding(crate::specs::Abends::AbendsAt))]
pub(crate) fn abend<S: Store + Drop>(
    shared: &mut Shared<S>,
    terminal_entry: &mut TerminalEntry,
    task: &mut Task,
    code: Name4,
    cancel: bool,
) -> TurnReply
    ensures { let before = context shared.old terminal_entry.old task.old in
        let after = context shared.new terminal_entry.new task.new in
        Abends code cancel before result after }
{
    if cancel {
        end_by_abend(shared, terminal_entry, task);
        return TurnReply::Abended(code);
    }
    match task.levels.find_exit() {
        Some(index) => {
            take_exit(&mut shared.store, task, index);
            TurnReply::TookExit(code)
        }
        None => {
            end_by_abend(shared, terminal_entry, task);
            TurnReply::Abended(code)
        }
    }
}
