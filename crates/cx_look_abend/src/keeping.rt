//! Events, with the last abend of each terminal kept.
ghost use Rattle.std.specs.Prelude.{◌≡◌, ◌≤◌, Bool, Option, true, if◌then◌else◌, IfOk, MatchOption, None, OnErr, OnOk};
ghost use Rattle.std.specs.Option.{option_map_or};
ghost use Rattle.indexmap.specs.IndexMap.{spare};
ghost use Rattle.cx_region.specs.State.{RegionState};
ghost use Rattle.cx_region.specs.declared.replies.Event.TheVariants as events;
ghost use Rattle.cx_edf.specs.declared.answers.EdfEvent.TheVariants as edf_event;
ghost use Rattle.cx_look_abend.specs.Dumps.{Dump};
ghost use Rattle.cx_look_abend.specs.declared.abends.TaskBefore.{TaskBefore as KeptBefore};
ghost use Rattle.cx_region_task.specs.declared.cause.AbendRecord.{AbendRecord as TheRecord};
ghost use Rattle.cx_edf.specs.Runs.{IsAllowedEdf};
ghost use Rattle.cx_edf.specs.State.{ends_by_key};
ghost use Rattle.cx_look_abend.specs.Abends.{by_operator, last_of_turn};
ghost use Rattle.cx_look_abend.specs.Noting.{AppliesWithAbends, MayTakeNoted, is_ending_key, kept_after, with_last};
ghost use Rattle.cx_look_abend.specs.Parts.Sources.{GivesDump};
ghost use Rattle.cx_look_abend.specs.Parts.Terminals.{defines_terminal};

use crate::abends::{LastAbend, LastAbends, TaskBefore, by_operator, last_of_turn, put_none};
use crate::before::{dump_before, task_before};
use crate::dumps::{DumpBefore, StorageDump};
use cx_ebcdic::{Aid, Name4};
use cx_edf::{Answer, Debugged, EdfEvent, MakesDisplays};
use cx_region::{AbendRecord, AlterReply, Change, Event, Region, Reply, TurnReply};
use cx_storage::Store;
use std::alloc::AllocError;

/// Keeps an abend as a terminal's last one, where the terminal is defined.
#[tactic(auto, using(cx_base::specs::Facts::Tables::set_value_absent))]
fn put(abends: &mut LastAbends, name: Name4, last: LastAbend)
    ensures { abends.new.entries ≡ with_last abends.old.entries name last }
{
    let Some(kept) = abends.get_mut(&name) else {
        return;
    };
    kept.keep(last);
}

/// Keeps that a terminal, for which there is room, has had no abend, where it was defined.
fn keep_terminal(abends: &mut LastAbends, name: Name4, answer: &Answer)
    requires { 1 ≤ spare abends.old }
    ensures { (ends : Bool) (task : KeptBefore) (dump : Option Dump) (it : Option TheRecord) (region : RegionState)
        → abends.new.entries ≡ kept_after abends.old.entries ends task
        (edf_event.Plain (events.Terminal name)) answer.now dump it region }
{
    let Answer::Region(Reply::Terminal(Ok(_))) = answer else {
        return;
    };
    put_none(abends, name);
}

/// What an event led to, with what was kept of its terminal's task before it.
#[derive(Drop)]
struct EventOutcome<'a> {
    task: TaskBefore,
    /// The DFHEISTG at an abend to which it led.
    dump: Option<StorageDump>,
    /// Whether the event was a key that ended the task.
    ends: bool,
    answer: &'a Answer,
    abend_record: &'a Option<AbendRecord>,
}

/// Keeps an abend to which a turn led, where the region is as it was after the turn.
fn keep_turn<S: Store + Drop>(
    abends: &mut LastAbends,
    region: &Region<S>,
    name: Name4,
    outcome: EventOutcome<'_>,
)
    ensures { let answer = outcome.entry.answer.now in let abend_record = outcome.entry.abend_record.now in
        let after = kept_after abends.old.entries outcome.entry.ends outcome.entry.task in
        let e = edf_event.Plain (events.Turn name) in
        abends.new.entries ≡ after e answer outcome.entry.dump abend_record region.now }
{
    let Answer::Region(Reply::Turn(reply)) = outcome.answer else {
        return;
    };
    let EventOutcome {
        task,
        dump,
        abend_record,
        ..
    } = outcome;
    let Some(last) = last_of_turn(region, name, reply, task, dump, abend_record) else {
        return;
    };
    put(abends, name, last);
}

/// Keeps an abend that an operator asked for by an alteration.
fn keep_alter(
    abends: &mut LastAbends,
    name: Name4,
    task: TaskBefore,
    change: &Change,
    answer: &Answer,
)
    ensures { (ends : Bool) (dump : Option Dump) (it : Option TheRecord) (region : RegionState)
        → abends.new.entries ≡ kept_after abends.old.entries ends task
        (edf_event.Plain (events.Alter name change.now)) answer.now dump it region }
{
    if let (Change::Abend, Answer::Region(Reply::Alter(AlterReply::Altered))) = (change, answer) {
        put(abends, name, by_operator(task));
    }
}

/// Keeps an abend that an operator asked for by a key.
fn keep_key(abends: &mut LastAbends, name: Name4, task: TaskBefore, ends: bool)
    ensures { let ended = with_last abends.old.entries name (by_operator task) in
        abends.new.entries ≡ (if ends then ended else abends.old.entries) }
{
    if ends {
        put(abends, name, by_operator(task));
    }
}

/// Keeps what an event led to, where the region is as it was after it.
fn keep<S: Store + Drop>(
    abends: &mut LastAbends,
    region: &Region<S>,
    event: &EdfEvent,
    outcome: EventOutcome<'_>,
)
    requires { defines_terminal event.now ≡ true → 1 ≤ spare abends.old }
    ensures { let answer = outcome.entry.answer.now in let abend_record = outcome.entry.abend_record.now in
        let after = kept_after abends.old.entries outcome.entry.ends outcome.entry.task in
        abends.new.entries ≡ after event.now answer outcome.entry.dump abend_record region.now }
{
    let EdfEvent::Plain(plain) = event else {
        return;
    };
    match plain {
        Event::Terminal(name) => keep_terminal(abends, *name, outcome.answer),
        Event::Turn(name) => keep_turn(abends, region, *name, outcome),
        Event::Alter(name, change) => {
            keep_alter(abends, *name, outcome.task, change, outcome.answer)
        }
        Event::Key(name, _aid, _bytes) => keep_key(abends, *name, outcome.task, outcome.ends),
        _ => (),
    }
}

/// Whether a key ends the task of a terminal.
fn ends_by_key<S: Store + Drop, M: MakesDisplays>(
    state: &Debugged<S, M>,
    name: Name4,
    aid: Aid,
) -> bool
    ensures { result ≡ ends_by_key state.now name aid }
{
    match aid {
        Aid::Pf12 => state.display(name).is_some() && state.task(name).is_some(),
        _ => false,
    }
}

/// Whether an event is a key that ends the task of its terminal.
fn is_ending_key<S: Store + Drop, M: MakesDisplays>(
    state: &Debugged<S, M>,
    event: &EdfEvent,
) -> bool
    ensures { result ≡ is_ending_key state.now event.now }
{
    match event {
        EdfEvent::Plain(Event::Key(name, aid, _bytes)) => ends_by_key(state, *name, *aid),
        _ => false,
    }
}

/// Makes room for a terminal that an event may define.
fn make_room(abends: &mut LastAbends, event: &EdfEvent) -> Result<(), AllocError>
    ensures same { abends.new.entries ≡ abends.old.entries }
    ensures room { OnOk result (defines_terminal event.now ≡ true → 1 ≤ spare abends.new) }
    ensures err { OnErr result (defines_terminal event.now ≡ true) }
{
    match event {
        EdfEvent::Plain(Event::Terminal(_name)) => abends.reserve(1),
        _ => Ok(()),
    }
}

/// The DFHEISTG at an abend to which an event led; nothing is run where it led to none.
fn dump_of(source: DumpBefore, abend_record: &Option<AbendRecord>) -> Option<StorageDump>
    ensures { MatchOption abend_record.now (result ≡ None) (λ it. GivesDump source result) }
{
    if abend_record.is_none() {
        return None;
    }
    source.dump()
}

/// Does an event of a region under EDF, and keeps its terminal's last abend, where the event led to one. Room for it is
/// made with the terminal, and what is kept of a task is taken before its turn. A turn's instructions are run once more
/// only where they led to an abend, for the storage at the abend.
///
/// An error comes only where an allocation failed: that of a new terminal's room, of what is kept of a task before its
/// turn, or one that the event may take. Then all is as before.
pub fn apply_keeping_abends<S: Store + Drop, M: MakesDisplays>(
    state: &mut Debugged<S, M>,
    abends: &mut LastAbends,
    event: &EdfEvent,
) -> Result<Answer, AllocError>
    requires { IsAllowedEdf event.now }
    ensures applies { let before = abends.old.entries in let after = abends.new.entries in
        IfOk result (λ given. AppliesWithAbends M.make state.old before event.now given state.new after) }
    ensures memory { OnErr result (MayTakeNoted state.old event.now) }
    ensures err { OnErr result ((state.new ≡ state.old) × (abends.new.entries ≡ abends.old.entries)) }
{
    make_room(abends, event)?;
    let ends = is_ending_key(state, event);
    let task = task_before(state.region(), event)?;
    let source = dump_before(state.region(), event)?;
    let (answer, abend_record) = state.apply_with_cause(event)?;
    let dump = dump_of(source, &abend_record);
    let outcome = EventOutcome {
        task,
        dump,
        ends,
        answer: &answer,
        abend_record: &abend_record,
    };
    keep(abends, state.region(), event, outcome);
    Ok(answer)
}
