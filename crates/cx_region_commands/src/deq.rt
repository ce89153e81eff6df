//! DEQ.
ghost use Rattle.std.specs.Prelude.{◌≡◌};
ghost use Rattle.cx_region_commands.specs.Deq.{deq_row};

use crate::common::{condition_alone, does};
use crate::enq::{is_wrong_length, resource_at};
use cx_base::{Condition, OptionName};
use cx_region_state::{AfterOutputs, CallInputs, TaskChange, Verdict};
use cx_storage::Store;

/// How a DEQ is judged: LENGERR where LENGTH is there and outside 1 to 255; else it meets NORMAL, and where the task
/// owns the resource its count is one less.
///
/// Application Programmer's Reference Manual, SC33-0077, "Task Control".
#[tactic(auto, unfolding(crate::specs::Deq::deq_row))]
pub(crate) fn judge_deq<S: Store>(inputs: &CallInputs<S>) -> Verdict
    ensures { result ≡ deq_row inputs.now.storage inputs.now.call }
{
    if is_wrong_length(inputs) {
        return condition_alone(Condition::Lengerr);
    }
    let name = resource_at(inputs);
    does(TaskChange::After(AfterOutputs::Dequeues(name)))
}
