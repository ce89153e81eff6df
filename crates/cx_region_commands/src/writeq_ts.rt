//! WRITEQ TS.
ghost use Rattle.std.specs.Prelude.{◌≡◌, ◌+◌, [], ◌∷◌, unwrap_or};
ghost use Rattle.cx_region_commands.specs.WriteqTs.{item_named, writeq_row};
ghost use Rattle.cx_region_commands.specs.Services.{fault_or_verdict};
ghost use Rattle.cx_region_commands.specs.Common.{does, output};
ghost use Rattle.cx_service.specs.Queues.{count_of, rewrite_fault, write_fault};

use crate::common::{does, name_at, piece_at};
use crate::services::fault_or_verdict;
use cx_base::{Condition, OptionName};
use cx_ebcdic::Name8;
use cx_region_state::{
    BeforeOutputs, CallInputs, OutputValue, Outputs, StorageSpan, TaskChange, Verdict, halfword,
};
use cx_service::Queues;
use cx_storage::Store;

/// A new item.
#[tactic(auto, using(crate::specs::Facts::Queues::few_items))]
fn writes(queues: &Queues, name: Name8, piece: StorageSpan) -> Verdict
    ensures { let number = unwrap_or (count_of queues.now name) 0 + 1 in
        result ≡ fault_or_verdict (write_fault queues.now name piece.len)
        (Verdict.Meets Condition.Normal (output OptionName.Item (OutputValue.Half number) ∷ [])
        (TaskChange.Before (BeforeOutputs.ItemLast name piece))) }
{
    let number = queues.items(name).unwrap_or(0) as u16 + 1;
    let outputs = Outputs::none().with(OptionName::Item, OutputValue::Half(number));
    let change = TaskChange::Before(BeforeOutputs::ItemLast(name, piece));
    fault_or_verdict(
        queues.can_write(name, usize::from(piece.len)),
        Verdict::Meets(Condition::Normal, outputs, change),
    )
}

/// An item replaced.
fn rewrites(queues: &Queues, name: Name8, n: u16, piece: StorageSpan) -> Verdict
    ensures { result
        ≡ fault_or_verdict (rewrite_fault queues.now name n piece.len)
        (does (TaskChange.Before (BeforeOutputs.ItemAt name n piece))) }
{
    let tested = queues.can_rewrite(name, usize::from(n), usize::from(piece.len));
    fault_or_verdict(
        tested,
        does(TaskChange::Before(BeforeOutputs::ItemAt(name, usize::from(n), piece))),
    )
}

/// The item that REWRITE names.
fn item_named<S: Store>(inputs: &CallInputs<S>) -> u16
    ensures { result ≡ item_named inputs.now.storage inputs.now.call }
{
    halfword(inputs.store(), inputs.call(), OptionName::Item).unwrap_or(0)
}

/// How a WRITEQ TS is judged. LENGERR where LENGTH is below 1; then with REWRITE QIDERR where there is no such queue,
/// and ITEMERR where there is no such item; without it ITEMERR where the queue has 32,767 items; then NOSPACE where it
/// would be a 257th queue, or all queues together would have more than 4,194,304 bytes. Else it meets NORMAL, and the
/// item replaces item ITEM, or goes last, and ITEM gets its number.
///
/// Application Programmer's Reference Manual, SC33-0077, "Temporary Storage Control".
#[tactic(auto, unfolding(crate::specs::WriteqTs::writeq_row))]
pub(crate) fn judge_writeq_ts<S: Store>(inputs: &CallInputs<S>, queues: &Queues) -> Verdict
    ensures { result ≡ writeq_row inputs.now.storage queues.now inputs.now.call }
{
    let name = name_at(inputs, OptionName::Queue);
    let piece = piece_at(inputs, OptionName::From);
    if inputs.call().has(OptionName::Rewrite) {
        rewrites(queues, name, item_named(inputs), piece)
    } else {
        writes(queues, name, piece)
    }
}
