//! ABEND.
ghost use Rattle.std.specs.Prelude.{◌≡◌};
ghost use Rattle.cx_region_commands.specs.Abend.{abend_row};

use crate::common::does;
use cx_base::{Abend, OptionName};
use cx_region_state::{CallInputs, TaskChange, Verdict, name4};
use cx_storage::Store;

/// How an ABEND is judged: it meets NORMAL, and the task abends with the code in ABCODE, or with `????` without it.
/// With CANCEL no exit takes the abend.
///
/// Application Programmer's Reference Manual, SC33-0077, "Abnormal Termination Recovery".
#[tactic(auto, unfolding(crate::specs::Abend::abend_row))]
pub(crate) fn judge_abend<S: Store>(inputs: &CallInputs<S>) -> Verdict
    ensures { result ≡ abend_row inputs.now.storage inputs.now.call }
{
    let call = inputs.call();
    let code = name4(inputs.store(), call, OptionName::Abcode).unwrap_or(Abend::Unnamed.code());
    does(TaskChange::AbendsWith(code, call.has(OptionName::Cancel)))
}
