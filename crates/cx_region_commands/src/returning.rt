//! RETURN.
ghost use Rattle.std.specs.Prelude.{◌≡◌, ◌||◌, if◌then◌else◌};
ghost use Rattle.cx_region_commands.specs.Return.{highest_return, next_of, return_row};
ghost use Rattle.cx_region_commands.specs.Common.{does, has, condition_alone};

use crate::common::{commarea_of, condition_alone, does};
use cx_base::{Condition, OptionName};
use cx_program::LevelStack;
use cx_region_state::{Call, CallInputs, RequestedTransaction, TaskChange, Verdict, name4};
use cx_storage::Store;

/// What the terminal's next key attaches.
#[tactic(auto, unfolding(crate::specs::Return::next_of))]
fn next_of<S: Store>(inputs: &CallInputs<S>) -> Option<RequestedTransaction>
    ensures { result ≡ next_of inputs.now.storage inputs.now.call }
{
    let tran = name4(inputs.store(), inputs.call(), OptionName::Transid)?;
    let commarea = commarea_of(inputs);
    Some(RequestedTransaction { tran, commarea })
}

/// At a lower level.
fn lower_return(call: &Call) -> Verdict
    ensures { result ≡ (if has call.now OptionName.Transid || has call.now OptionName.Commarea
        then condition_alone Condition.Invreq else does TaskChange.LevelEnds) }
{
    if call.has(OptionName::Transid) || call.has(OptionName::Commarea) {
        condition_alone(Condition::Invreq)
    } else {
        does(TaskChange::LevelEnds)
    }
}

/// At the highest level.
fn highest_return<S: Store>(inputs: &CallInputs<S>) -> Verdict
    ensures { result ≡ highest_return inputs.now.storage inputs.now.call }
{
    let call = inputs.call();
    let lacks_transid = call.has(OptionName::Commarea) && !call.has(OptionName::Transid);
    if lacks_transid {
        return condition_alone(Condition::Invreq);
    }
    if inputs.is_length_negative() {
        return condition_alone(Condition::Lengerr);
    }
    does(TaskChange::TaskEnds(next_of(inputs)))
}

/// How a RETURN is judged. Below the highest level: INVREQ where TRANSID or COMMAREA is there, else the level ends. At
/// the highest level: INVREQ where COMMAREA is there without TRANSID; then LENGERR where LENGTH is negative; else the
/// task ends, and leaves TRANSID and the COMMAREA for the terminal's next key.
///
/// Application Programmer's Reference Manual, SC33-0077, "Program Control".
#[tactic(auto, unfolding(crate::specs::Return::return_row))]
pub(crate) fn judge_return<S: Store>(inputs: &CallInputs<S>, levels: &LevelStack) -> Verdict
    ensures { result ≡ return_row inputs.now.storage levels.now.callers inputs.now.call }
{
    if levels.len() == 1 {
        highest_return(inputs)
    } else {
        lower_return(inputs.call())
    }
}
