//! The command that is due: what it will do.
ghost use Rattle.std.specs.Prelude.{◌≡◌, MatchBool, Some};
ghost use Rattle.cx_region_commands.specs.Common.{AreSoundPrograms};
ghost use Rattle.cx_service.specs.Queues.{AreSoundQueues};
ghost use Rattle.cx_region_state.specs.Inputs.{are_inputs_there};
ghost use Rattle.cx_region_state.specs.State.{context};
ghost use Rattle.cx_region_state.specs.Parts.Fits.{FitsChange};
ghost use Rattle.cx_region_task.specs.Decisions.{continuation_at, decision_by, resource_waited, wait_for};
ghost use Rattle.cx_region_task.specs.Performing.{Decides, DecidesCall, fault_abend};

use crate::decision::{Act, Decision, Wait};
use crate::going::{continuation_at, is_wait};
use crate::outputs::has_room;
use cx_base::{Abend, Condition, OptionName};
use cx_region_commands::{is_wrong_length, judge, resource_named};
use cx_region_state::{
    Call, CallFault, CallInputs, Shared, Task, TerminalEntry, Verdict, name8, read_call,
};
use cx_service::ResourceName;
use cx_storage::{Store, address_in};

/// The abend that a call's fault leads to.
fn fault_abend(fault: CallFault) -> Abend
    ensures { result ≡ fault_abend fault }
{
    match fault {
        CallFault::Xarg => Abend::Xarg,
        CallFault::Xfun => Abend::Xfun,
    }
}

/// The resource that a command names.
fn resource_waited<S: Store>(inputs: &CallInputs<S>) -> Option<ResourceName>
    ensures { result ≡ resource_waited inputs.now.storage inputs.now.call }
{
    if is_wrong_length(inputs) {
        return None;
    }
    resource_named(inputs)
}

/// What a command that meets a condition waits for.
fn wait_for<S: Store>(condition: Condition, inputs: &CallInputs<S>) -> Wait
    ensures { result ≡ wait_for condition inputs.now.storage inputs.now.call }
{
    match condition {
        Condition::Enqbusy => Wait::Resource(resource_waited(inputs)),
        Condition::Nospace => {
            Wait::Room(name8(inputs.store(), inputs.call(), OptionName::Queue))
        }
        _ => Wait::Storage,
    }
}

/// What is decided of a call that meets a condition, where its task would go on so.
#[tactic(auto, unfolding(crate::specs::Decisions::decision_by))]
fn decide_act<S: Store + Drop>(
    act: Act,
    shared: &Shared<S>,
    terminal_entry: &TerminalEntry,
    task: &Task,
) -> Decision
    requires fits { FitsChange act.change (context shared.now terminal_entry.now task.now) }
    requires continuation { act.continuation ≡ continuation_at act.call act.condition act.change
        (context shared.now terminal_entry.now task.now) }
    ensures { let before = context shared.now terminal_entry.now task.now in
        result ≡ decision_by act.call (Verdict.Meets act.condition act.outputs act.change) before }
{
    if !has_room(&act, shared, terminal_entry, task) {
        return Decision::Refuse(Some(act.call), Abend::Xarg);
    }
    if is_wait(&act.continuation) {
        let wait = wait_for(act.condition, &CallInputs::read(&shared.store, &act.call));
        return Decision::Wait(act.call, wait);
    }
    Decision::Act(act)
}

/// What is decided of a call: its inputs are tested, its row judges it, and its outputs are tested.
#[tactic(auto, unfolding(crate::specs::Decisions::decision_by), using(cx_region_commands::specs::Facts::Fits::judged_fits))]
fn decide_call<S: Store + Drop>(
    call: Call,
    shared: &Shared<S>,
    terminal_entry: &TerminalEntry,
    task: &Task,
) -> Decision
    requires programs { AreSoundPrograms shared.now.programs }
    requires queues { AreSoundQueues shared.now.queues }
    ensures { MatchBool (are_inputs_there shared.now.storage call)
        (DecidesCall call (context shared.now terminal_entry.now task.now) result)
        (result ≡ Decision.Refuse (Some call) Abend.Xarg) }
{
    call.addresses_are_below();
    let inputs = CallInputs::read(&shared.store, &call);
    if !inputs.are_there() {
        return Decision::Refuse(Some(call), Abend::Xarg);
    }
    match judge(&inputs, shared, terminal_entry, task) {
        Verdict::Refuses(abend) => Decision::Refuse(Some(call), abend),
        Verdict::Waits => Decision::Wait(call, Wait::Input),
        Verdict::Meets(condition, outputs, change) => {
            let continuation = continuation_at(&call, condition, &change, task);
            let act = Act {
                call,
                condition,
                outputs,
                change,
                continuation,
            };
            decide_act(act, shared, terminal_entry, task)
        }
    }
}

/// What the command that is due will do: its argument list is read, its inputs are tested, then the rule of its command
/// is asked, and its outputs are tested. Nothing changes, and no memory is taken. Each program must be sound: 80 to
/// 65,520 bytes of working storage, and an entry below 2^24.
#[tactic(auto, unfolding(crate::specs::Performing::Decides))]
pub fn decide<S: Store + Drop>(
    shared: &Shared<S>,
    terminal_entry: &TerminalEntry,
    task: &Task,
) -> Decision
    requires { AreSoundPrograms shared.now.programs }
    ensures decides { Decides (context shared.now terminal_entry.now task.now) result }
    ensures queues { AreSoundQueues shared.now.queues }
{
    // A look at the queues says that they are within their limits.
    shared.queues.all();
    match read_call(&shared.store, address_in(task.cpu.regs[1])) {
        Ok(call) => decide_call(call, shared, terminal_entry, task),
        Err(fault) => Decision::Refuse(None, fault_abend(fault)),
    }
}
