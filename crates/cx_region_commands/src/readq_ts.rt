//! READQ TS.
ghost use Rattle.std.specs.Prelude.{◌≡◌, ◌≤◌};
ghost use Rattle.cx_region_state.specs.Inputs.{halfword_of};
ghost use Rattle.cx_region_commands.specs.Common.{AtPlace};
ghost use Rattle.cx_region_commands.specs.ReadqTs.{ReadsQueue, ReadsQueueItem, ReadqRow, reads_into, reads_to};

use crate::common::{condition_alone, name_at, task_place};
use cx_base::{Condition, OptionName};
use cx_ebcdic::Name8;
use cx_region_state::{
    AfterOutputs, CallInputs, Fill, Got, OutputValue, Outputs, TaskChange, Verdict, halfword,
};
use cx_service::{Queues, Reading, ServiceFault};
use cx_storage::Store;

/// With INTO.
fn reads_into(room: u16, name: Name8, reading: Reading) -> Verdict
    ensures { result ≡ reads_into room name reading }
{
    let condition = if reading.len <= room {
        Condition::Normal
    } else {
        Condition::Lengerr
    };
    let outputs = Outputs::none()
        .with(OptionName::Into, OutputValue::Text(room))
        .with(OptionName::Length, OutputValue::Half(reading.len))
        .with(OptionName::Numitems, OutputValue::Half(reading.count));
    let change = TaskChange::After(AfterOutputs::MarksRead(name, reading));
    Verdict::Meets(condition, outputs, change)
}

/// An item that there is.
#[tactic(auto, unfolding(crate::specs::ReadqTs::ReadsQueueItem))]
fn reads<S: Store>(inputs: &CallInputs<S>, name: Name8, reading: Reading) -> Verdict
    requires nonempty { 1 ≤ reading.len }
    ensures { ReadsQueueItem inputs.now.storage inputs.now.call name reading result }
{
    if !inputs.call().has(OptionName::Set) {
        return reads_into(inputs.length(), name, reading);
    }
    let Some(place) = task_place(inputs.store(), u32::from(reading.len)) else {
        return condition_alone(Condition::Nostg);
    };
    let outputs = Outputs::none()
        .with(OptionName::Length, OutputValue::Half(reading.len))
        .with(OptionName::Set, OutputValue::Word(place))
        .with(OptionName::Numitems, OutputValue::Half(reading.count));
    let got = Got {
        place,
        len: u32::from(reading.len),
        fill: Fill::Item(name, reading.number),
    };
    Verdict::Meets(Condition::Normal, outputs, TaskChange::Gets(got))
}

/// The number of the item that ITEM asks for.
fn item_asked<S: Store>(inputs: &CallInputs<S>) -> Option<usize>
    ensures { result ≡ halfword_of inputs.now.storage inputs.now.call OptionName.Item }
{
    halfword(inputs.store(), inputs.call(), OptionName::Item).map(|n| usize::from(n))
}

/// The queue of that name.
fn reads_queue<S: Store>(inputs: &CallInputs<S>, queues: &Queues, name: Name8) -> Verdict
    ensures { ReadsQueue inputs.now.storage queues.now inputs.now.call name result }
{
    match queues.reading(name, item_asked(inputs)) {
        Ok(reading) => reads(inputs, name, reading),
        Err(fault) if fault == ServiceFault::Qiderr => condition_alone(Condition::Qiderr),
        Err(_no_item) => condition_alone(Condition::Itemerr),
    }
}

/// How a READQ TS is judged. LENGERR where LENGTH is negative and INTO is there; then QIDERR where there is no such
/// queue; then ITEMERR where there is no such item; then NOSTG with SET where task storage has no place. Else the item
/// is the one last read; with INTO, LENGERR where it is longer than LENGTH, and its first bytes are written all the
/// same; else NORMAL.
///
/// Application Programmer's Reference Manual, SC33-0077, "Temporary Storage Control".
#[tactic(auto, unfolding(crate::specs::ReadqTs::ReadqRow))]
pub(crate) fn judge_readq_ts<S: Store>(inputs: &CallInputs<S>, queues: &Queues) -> Verdict
    ensures { ReadqRow inputs.now.storage queues.now inputs.now.call result }
{
    if inputs.call().has(OptionName::Into) && inputs.is_length_negative() {
        return condition_alone(Condition::Lengerr);
    }
    let name = name_at(inputs, OptionName::Queue);
    reads_queue(inputs, queues, name)
}
