//! What a command writes, and what it ends afterwards.
ghost use Rattle.std.specs.Prelude.{◌≡◌, ◌<◌, ◌^◌, [], IfSome, None, Some, option_map, slice_get, unwrap_or};
ghost use Rattle.std.specs.Option.{option_map_or};
ghost use Rattle.cx_ebcdic.specs.Aids.{key_of};
ghost use Rattle.cx_base.specs.Commands.{row_of};
ghost use Rattle.cx_storage.specs.Storage.{starts_elsewhere, with_areas_kept};
ghost use Rattle.cx_service.specs.Queues.{item_of, with_last_read, without_queue};
ghost use Rattle.cx_service.specs.Resources.{dequeue};
ghost use Rattle.cx_region_state.specs.State.{context, with_storage};
ghost use Rattle.cx_region_state.specs.Verdicts.{handed_over};
ghost use Rattle.cx_region_state.specs.Parts.Fits.{FitsChange, FitsEnded};
ghost use Rattle.cx_region_task.specs.Changes.{apply_after, write_outputs, read_for, report_of, write_report, with_change, with_queues, with_resources};
ghost use Rattle.cx_region_task.specs.Parts.Making.{MatchEnded, MatchFinished, text_length, text_of};
ghost use Rattle.cx_region_task.specs.Decisions.{has_room};
ghost use Rattle.cx_region_state.specs.Outputs.{put_out};

use crate::areas::length_or_zero;
use crate::decision::Act;
use crate::making::item_bytes;
use cx_base::Command;
use cx_program::LevelStack;
use cx_region_state::{
    AfterOutputs, Call, CommandReport, Fill, Input, Shared, Task, TaskChange, TerminalEntry,
    have_room, put_outputs, put_report, resource,
};
use cx_service::Queues;
use cx_storage::Store;

/// The bytes of a held input; none where none is held.
fn input_bytes(input: &Option<Input>) -> &[u8]
    ensures { result.now ≡ option_map_or (λ held. held.bytes) input.now [] }
{
    match input {
        Some(input) => input.bytes.as_slice(),
        None => &[],
    }
}

/// The text that a command hands over.
fn text_of<'a>(change: &TaskChange, queues: &'a Queues, input: &'a Option<Input>) -> &'a [u8]
    ensures { result.now ≡ text_of change.now input.now queues.now }
{
    match change {
        TaskChange::After(AfterOutputs::TakesInput) => input_bytes(input),
        TaskChange::After(AfterOutputs::MarksRead(name, reading)) => item_bytes(
            queues,
            *name,
            reading.number,
        ),
        _ => &[],
    }
}

/// How many bytes the text has that a command hands over.
fn text_len(change: &TaskChange, input: &Option<Input>) -> usize
    ensures { result ≡ text_length change.now input.now }
{
    match change {
        TaskChange::After(AfterOutputs::TakesInput) => input_bytes(input).len(),
        TaskChange::After(AfterOutputs::MarksRead(_name, reading)) => usize::from(reading.len),
        _ => 0,
    }
}

/// Whether each byte of a command's outputs is in storage, with the text that it hands over. An output whose option
/// isn't there has none.
pub(crate) fn has_room<S: Store + Drop>(
    act: &Act,
    shared: &Shared<S>,
    terminal_entry: &TerminalEntry,
    task: &Task,
) -> bool
    requires { FitsChange act.now.change (context shared.now terminal_entry.now task.now) }
    ensures { let before = context shared.now terminal_entry.now task.now in
        result ≡ has_room act.now.call act.now.outputs act.now.change before }
{
    let len = text_len(&act.change, &terminal_entry.input);
    have_room(&shared.store, &act.call, len, &act.outputs)
}

/// Writes the outputs, of the text that the command hands over.
#[tactic(auto, unfolding(crate::specs::Changes::write_outputs, cx_region_state::specs::Verdicts::handed_over))]
pub(crate) fn write_outputs<S: Store + Drop>(
    act: &Act,
    shared: &mut Shared<S>,
    terminal_entry: &TerminalEntry,
    task: &Task,
)
    ensures { let before = context shared.old terminal_entry.now task.now in
        let after = context shared.new terminal_entry.now task.now in
        after ≡ write_outputs act.now.call act.now.outputs act.now.change before }
{
    let text = text_of(&act.change, &shared.queues, &terminal_entry.input);
    put_outputs(&mut shared.store, &act.call, text, &act.outputs);
}

/// The EIBCALEN of the nearest caller, where there is one.
#[tactic(auto, using(crate::proofs::CallerLemmas::calen_none, crate::proofs::CallerLemmas::calen_some, crate::proofs::CallerLemmas::calen_lost))]
fn calen_above(levels: &LevelStack) -> Option<u16>
    ensures { result ≡ option_map (λ caller. caller.calen) (slice_get levels.now.callers 0) }
{
    let count = levels.len();
    if count < 2 {
        return None;
    }
    match levels.get(count - 2) {
        Some(caller) => Some(caller.calen),
        None => None,
    }
}

/// What the command reports.
#[tactic(auto, unfolding(crate::specs::Changes::report_of))]
pub(crate) fn report_of<S: Store + Drop>(
    act: &Act,
    shared: &Shared<S>,
    terminal_entry: &TerminalEntry,
    task: &Task,
) -> CommandReport
    ensures { let before = context shared.now terminal_entry.now task.now in
        result ≡ report_of act.now.call act.now.condition act.now.change before }
{
    let plain = CommandReport {
        function: act.call.command().function(),
        condition: act.condition.number(),
        resource: resource(&shared.store, &act.call),
        aid: None,
        calen: None,
    };
    match &act.change {
        TaskChange::After(AfterOutputs::TakesInput) => CommandReport {
            aid: terminal_entry.input.as_ref().map(|held| held.aid.code()),
            ..plain
        },
        TaskChange::Enters(level) => CommandReport {
            calen: Some(length_or_zero(level.commarea)),
            ..plain
        },
        TaskChange::Replaces(_copying, level) => CommandReport {
            calen: Some(length_or_zero(level.commarea)),
            ..plain
        },
        TaskChange::LevelEnds => CommandReport {
            function: Command::Link.function(),
            calen: calen_above(&task.levels),
            ..plain
        },
        _ => plain,
    }
}

/// What a change ends, after all else is written.
#[tactic(auto, unfolding(crate::specs::Changes::apply_after))]
pub(crate) fn apply_after<S: Store + Drop>(
    change: &TaskChange,
    shared: &mut Shared<S>,
    terminal_entry: &mut TerminalEntry,
    task: &Task,
)
    requires { MatchFinished change.now shared.old.queues }
    ensures { context shared.new terminal_entry.new task.now
        ≡ apply_after change.now (context shared.old terminal_entry.old task.now) }
{
    match change {
        TaskChange::After(it) => match it {
            AfterOutputs::TakesInput => terminal_entry.input = None,
            AfterOutputs::MarksRead(name, reading) => shared
                .queues
                .mark_read(*name, reading.number),
            AfterOutputs::QueueGone(name) => shared.queues.remove(*name),
            AfterOutputs::Dequeues(resource) => shared.enqueues.deq(terminal_entry.slot, resource),
            AfterOutputs::Frees(place) => {
                shared.store.free_area(*place);
            }
        },
        TaskChange::Gets(got) => match &got.fill {
            Fill::Item(name, n) => shared.queues.mark_read(*name, *n),
            Fill::Byte(_) => (),
        },
        _ => (),
    }
}

/// Reports in the EIB, and in RESP's word.
#[tactic(auto, unfolding(crate::specs::Changes::write_report))]
pub(crate) fn write_report<S: Store + Drop>(
    call: &Call,
    answer: &CommandReport,
    shared: &mut Shared<S>,
    terminal_entry: &TerminalEntry,
    task: &Task,
)
    ensures { let before = context shared.old terminal_entry.now task.now in
        context shared.new terminal_entry.now task.now ≡ write_report call.now answer.now before }
{
    put_report(&mut shared.store, task.eib, call, answer);
}
