//! DELETEQ TS.
ghost use Rattle.std.specs.Prelude.{◌≡◌};
ghost use Rattle.cx_region_commands.specs.DeleteqTs.{deleteq_row};

use crate::common::{condition_alone, does, name_at};
use cx_base::{Condition, OptionName};
use cx_region_state::{AfterOutputs, CallInputs, TaskChange, Verdict};
use cx_service::Queues;
use cx_storage::Store;

/// How a DELETEQ TS is judged: QIDERR where there is no such queue; else it meets NORMAL, and the queue is gone.
///
/// Application Programmer's Reference Manual, SC33-0077, "Temporary Storage Control".
#[tactic(auto, unfolding(crate::specs::DeleteqTs::deleteq_row))]
pub(crate) fn judge_deleteq_ts<S: Store>(inputs: &CallInputs<S>, queues: &Queues) -> Verdict
    ensures { result ≡ deleteq_row inputs.now.storage queues.now inputs.now.call }
{
    let name = name_at(inputs, OptionName::Queue);
    if queues.items(name).is_none() {
        return condition_alone(Condition::Qiderr);
    }
    does(TaskChange::After(AfterOutputs::QueueGone(name)))
}
