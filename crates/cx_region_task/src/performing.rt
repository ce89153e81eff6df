//! A decision is carried out: the one wrapper around each command.
ghost use Rattle.std.specs.Prelude.{◌≡◌, true, IfOk, OnOk, OnErr};
ghost use Rattle.cx_region_state.specs.State.{context};
ghost use Rattle.cx_region_state.specs.Parts.Fits.{FitsChange};
ghost use Rattle.cx_region_task.specs.Changes.{Commits, change_takes_memory};
ghost use Rattle.cx_region_task.specs.Parts.Making.{MatchWay};
ghost use Rattle.cx_region_task.specs.Parts.Performing.{FitsDecision, decision_takes_memory};
ghost use Rattle.cx_region_task.specs.Performing.{CarriesOut, Does};

use crate::abending::abend;
use crate::decision::{Act, Decision};
use crate::going::go;
use crate::making::apply_before;
use crate::outputs::{apply_after, report_of, write_outputs, write_report};
use cx_region_state::{Shared, Task, TerminalEntry, TurnReply};
use cx_storage::Store;
use std::alloc::AllocError;

/// All that a command does: what its change makes, its outputs, its report, and what its change ends.
///
/// An error comes only where an allocation failed; then all is as before.
fn commit<S: Store + Drop>(
    act: &Act,
    shared: &mut Shared<S>,
    terminal_entry: &mut TerminalEntry,
    task: &mut Task,
) -> Result<(), AllocError>
    requires { FitsChange act.now.change (context shared.old terminal_entry.old task.old) }
    ensures ok { let before = context shared.old terminal_entry.old task.old in
        let after = context shared.new terminal_entry.new task.new in
        OnOk result (Commits act.now.call act.now.condition act.now.outputs act.now.change before after) }
    ensures err { OnErr result
        (context shared.new terminal_entry.new task.new ≡ context shared.old terminal_entry.old task.old) }
    ensures memory { OnErr result (change_takes_memory act.now.change ≡ true) }
{
    let answer = report_of(act, shared, terminal_entry, task);
    apply_before(&act.change, shared, terminal_entry, task)?;
    write_outputs(act, shared, terminal_entry, task);
    write_report(&act.call, &answer, shared, terminal_entry, task);
    apply_after(&act.change, shared, terminal_entry, task);
    Ok(())
}

/// A command is done, and its task goes its way.
///
/// An error comes only where an allocation failed; then all is as before.
fn perform<S: Store + Drop>(
    act: &Act,
    shared: &mut Shared<S>,
    terminal_entry: &mut TerminalEntry,
    task: &mut Task,
) -> Result<TurnReply, AllocError>
    requires fits { FitsChange act.now.change (context shared.old terminal_entry.old task.old) }
    requires way { MatchWay act.now.continuation task.old.levels }
    ensures does { let before = context shared.old terminal_entry.old task.old in
        let after = context shared.new terminal_entry.new task.new in
        IfOk result (λ reply. Does act.now before reply after) }
    ensures err { OnErr result
        (context shared.new terminal_entry.new task.new ≡ context shared.old terminal_entry.old task.old) }
    ensures memory { OnErr result (change_takes_memory act.now.change ≡ true) }
{
    commit(act, shared, terminal_entry, task)?;
    Ok(go(
        &act.continuation,
        act.condition,
        shared,
        terminal_entry,
        task,
    ))
}

/// Carries out what was decided of the command that is due.
///
/// An error comes only where an allocation failed, and only where the command is done and its change takes memory; then
/// all is as before.
#[tactic(auto, unfolding(crate::specs::Performing::CarriesOut, crate::specs::Parts::Performing::FitsDecision))]
pub(crate) fn carry_out<S: Store + Drop>(
    decision: &Decision,
    shared: &mut Shared<S>,
    terminal_entry: &mut TerminalEntry,
    task: &mut Task,
) -> Result<TurnReply, AllocError>
    requires { FitsDecision decision.now (context shared.old terminal_entry.old task.old) }
    ensures carries { let before = context shared.old terminal_entry.old task.old in
        let after = context shared.new terminal_entry.new task.new in
        IfOk result (λ reply. CarriesOut decision.now before reply after) }
    ensures err { OnErr result
        (context shared.new terminal_entry.new task.new ≡ context shared.old terminal_entry.old task.old) }
    ensures memory { OnErr result (decision_takes_memory decision.now ≡ true) }
{
    match decision {
        Decision::Refuse(_call, refusal) => {
            Ok(abend(shared, terminal_entry, task, refusal.code(), false))
        }
        Decision::Wait(_call, _wait) => Ok(TurnReply::Waiting),
        Decision::Act(act) => perform(act, shared, terminal_entry, task),
    }
}
