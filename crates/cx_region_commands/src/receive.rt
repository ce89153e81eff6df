//! RECEIVE.
ghost use Rattle.std.specs.Prelude.{◌≡◌};
ghost use Rattle.cx_region_commands.specs.Receive.{receive_row};

use cx_base::{Condition, OptionName};
use cx_region_state::{AfterOutputs, Input, OutputValue, Outputs, TaskChange, Verdict};

/// How a RECEIVE is judged, by the held input and the number of bytes that LENGTH says: without input it waits; else
/// INTO gets at most so many bytes of it, LENGTH its length, and the input is gone. It meets LENGERR where the input is
/// longer, else NORMAL.
///
/// Application Programmer's Reference Manual, SC33-0077, "Terminal Control".
#[tactic(auto, unfolding(crate::specs::Receive::receive_row))]
pub(crate) fn judge_receive(input: &Option<Input>, room: u16) -> Verdict
    ensures { result ≡ receive_row input.now room }
{
    let Some(input) = input else {
        return Verdict::Waits;
    };
    let len = input.bytes.as_slice().len();
    let condition = if len <= usize::from(room) {
        Condition::Normal
    } else {
        Condition::Lengerr
    };
    let outputs = Outputs::none()
        .with(OptionName::Into, OutputValue::Text(room))
        .with(OptionName::Length, OutputValue::Half(len as u16));
    Verdict::Meets(
        condition,
        outputs,
        TaskChange::After(AfterOutputs::TakesInput),
    )
}
