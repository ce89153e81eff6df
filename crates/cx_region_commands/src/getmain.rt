//! GETMAIN.
ghost use Rattle.std.specs.Prelude.{◌≡◌, ◌≤◌};
ghost use Rattle.cx_region_commands.specs.Common.{AtPlace};
ghost use Rattle.cx_region_commands.specs.Getmain.{GetmainRow, fill_byte, gets, is_area_length};

use crate::common::{condition_alone, task_place};
use cx_base::{Condition, OptionName};
use cx_region_state::{
    CallInputs, Fill, Got, OutputValue, Outputs, TaskChange, Verdict, read_argument,
};
use cx_storage::Store;

/// The most bytes of an area.
const MOST_BYTES: u16 = 65_520;

/// INITIMG's byte, or zero without it.
#[tactic(auto, unfolding(crate::specs::Getmain::fill_byte))]
fn fill_byte<S: Store>(inputs: &CallInputs<S>) -> u8
    ensures { result ≡ fill_byte inputs.now.storage inputs.now.call }
{
    let mut byte = [0];
    if read_argument(
        inputs.store(),
        inputs.call(),
        OptionName::Initimg,
        &mut byte,
    ) {
        byte[0]
    } else {
        0
    }
}

/// By the area's place.
fn gets(len: u16, byte: u8, place: Option<u32>) -> Verdict
    ensures { result ≡ gets len byte place }
{
    let Some(place) = place else {
        return condition_alone(Condition::Nostg);
    };
    let got = Got {
        place,
        len: u32::from(len),
        fill: Fill::Byte(byte),
    };
    let outputs = Outputs::none().with(OptionName::Set, OutputValue::Word(place));
    Verdict::Meets(Condition::Normal, outputs, TaskChange::Gets(got))
}

/// How a GETMAIN is judged: LENGERR where LENGTH is 0 or above 65,520; then NOSTG where task storage has no place; else
/// it meets NORMAL, the task gets an area at the least place, each byte INITIMG's or zero, and SET gets its address.
///
/// Application Programmer's Reference Manual, SC33-0077, "Storage Control".
#[tactic(auto, unfolding(crate::specs::Getmain::GetmainRow))]
pub(crate) fn judge_getmain<S: Store>(inputs: &CallInputs<S>) -> Verdict
    ensures { GetmainRow inputs.now.storage inputs.now.call result }
{
    let len = inputs.length_halfword().unwrap_or(0);
    if len == 0 || len > MOST_BYTES {
        return condition_alone(Condition::Lengerr);
    }
    let place = task_place(inputs.store(), u32::from(len));
    gets(len, fill_byte(inputs), place)
}
