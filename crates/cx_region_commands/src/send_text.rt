//! SEND TEXT.
ghost use Rattle.std.specs.Prelude.{◌≡◌};
ghost use Rattle.cx_region_commands.specs.SendText.{send_text_row};

use crate::common::{condition_alone, does, piece_at};
use cx_base::{Condition, OptionName};
use cx_region_state::{BeforeOutputs, CallInputs, TaskChange, Verdict};
use cx_storage::Store;

/// How a SEND TEXT is judged: LENGERR where LENGTH is negative; else it meets NORMAL, and the text is shown, on a blank
/// screen with ERASE.
///
/// Application Programmer's Reference Manual, SC33-0077, "Basic Mapping Support".
#[tactic(auto, unfolding(crate::specs::SendText::send_text_row))]
pub(crate) fn judge_send_text<S: Store>(inputs: &CallInputs<S>) -> Verdict
    ensures { result ≡ send_text_row inputs.now.storage inputs.now.call }
{
    if inputs.is_length_negative() {
        return condition_alone(Condition::Lengerr);
    }
    let piece = piece_at(inputs, OptionName::From);
    let erase = inputs.call().has(OptionName::Erase);
    does(TaskChange::Before(BeforeOutputs::Shows(piece, erase)))
}
