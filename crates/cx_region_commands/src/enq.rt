//! ENQ.
ghost use Rattle.std.specs.Prelude.{◌≡◌, IsFalse};
ghost use Rattle.cx_region_commands.specs.Enq.{enq_row, is_wrong_length, resource_at, resource_named};

use crate::common::{condition_alone, does};
use crate::services::fault_or_verdict;
use cx_base::{Condition, OptionName};
use cx_region_state::{BeforeOutputs, CallInputs, TaskChange, Verdict, read_argument};
use cx_service::{Enqueues, ResourceName};
use cx_storage::Store;

/// The most bytes of a resource's name.
const MOST_NAME: usize = 255;

/// Whether an ENQ or a DEQ has a LENGTH that names nothing: outside 1 to 255.
pub fn is_wrong_length<S: Store>(inputs: &CallInputs<S>) -> bool
    ensures { result ≡ is_wrong_length inputs.now.storage inputs.now.call }
{
    let len = usize::from(inputs.length());
    inputs.call().has(OptionName::Length) && (len == 0 || len > MOST_NAME)
}

/// The resource that an ENQ or a DEQ names, whose LENGTH is not wrong (`is_wrong_length`): by as many bytes as LENGTH
/// says, 1 to 255, or without LENGTH by the address itself. None where there is no such argument, or one of those bytes
/// isn't in storage.
#[tactic(auto, unfolding(crate::specs::Enq::resource_named))]
pub fn resource_named<S: Store>(inputs: &CallInputs<S>) -> Option<ResourceName>
    requires names { IsFalse (is_wrong_length inputs.now.storage inputs.now.call) }
    ensures { result ≡ resource_named inputs.now.storage inputs.now.call }
{
    let call = inputs.call();
    if !call.has(OptionName::Length) {
        return call.place(OptionName::Resource).map(ResourceName::Address);
    }
    let len = inputs.length() as usize;
    let mut buffer = [0; MOST_NAME];
    let bytes = &mut buffer[..len];
    if !read_argument(inputs.store(), call, OptionName::Resource, bytes) {
        return None;
    }
    ResourceName::from_bytes(bytes).ok()
}

/// The resource that an ENQ or a DEQ names, which is always there.
#[tactic(auto, unfolding(crate::specs::Enq::resource_at))]
pub(crate) fn resource_at<S: Store>(inputs: &CallInputs<S>) -> ResourceName
    requires names { IsFalse (is_wrong_length inputs.now.storage inputs.now.call) }
    ensures { result ≡ resource_at inputs.now.storage inputs.now.call }
{
    resource_named(inputs).unwrap_or(ResourceName::Address(0))
}

/// How an ENQ is judged: LENGERR where LENGTH is there and outside 1 to 255; then ENQBUSY where another task owns the
/// resource, or it would be the 257th; then INVREQ where the task's count is 65,535; else it meets NORMAL, and the
/// count is one more. `slot` is the position of the task's terminal, counted from 1.
///
/// Application Programmer's Reference Manual, SC33-0077, "Task Control".
#[tactic(auto, unfolding(crate::specs::Enq::enq_row))]
pub(crate) fn judge_enq<S: Store>(inputs: &CallInputs<S>, resources: &Enqueues, slot: u8) -> Verdict
    ensures { result ≡ enq_row inputs.now.storage resources.now slot inputs.now.call }
{
    if is_wrong_length(inputs) {
        return condition_alone(Condition::Lengerr);
    }
    let name = resource_at(inputs);
    let tested = resources.can_enq(slot, &name);
    fault_or_verdict(
        tested,
        does(TaskChange::Before(BeforeOutputs::Enqueues(name))),
    )
}
