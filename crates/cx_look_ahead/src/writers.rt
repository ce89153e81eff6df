//! What a turn does, and which instructions of a run changed bytes of ranges last.
ghost use Rattle.std.specs.Prelude.{◌≡◌, IfOk, IfSome, OnOk, MatchOption, map};
ghost use Rattle.std.specs.List.{AllByRecursion};
ghost use Rattle.std.specs.Str.{bytes_eq};
ghost use Rattle.cx_region_task.specs.Turn.{most_steps};
ghost use Rattle.cx_look_turn.specs.Traces.{Leaves};
ghost use Rattle.cx_look_ahead.specs.declared.watching.Cause.TheVariants as cause_kind;
ghost use Rattle.cx_look_ahead.specs.Parts.Seen.{AreBytes, IsLastSeen, noted, seen_in};
ghost use Rattle.cx_look_ahead.specs.Watching.{work_of, next_work, shown_in};

use crate::watching::{are_same, copy_of};
use crate::{Cause, Kept, Row, bytes_word};
use cx_ebcdic::Name4;
use cx_exec::Watcher;
use cx_exec_laws::laws::steps_decide;
use cx_look_fields::task_of;
use cx_look_turn::{KeptMachine, TurnMachine};
use cx_region::Region;
use cx_region_state::Task;
use cx_storage::laws::store_is_sound;
use cx_storage::{Store, address_in};
use std::alloc::{AllocError, Global};
use std::marker::Model;

/// What is done of a program next at a terminal.
#[derive(Drop)]
pub enum Work {
    /// Nothing.
    Nothing,
    /// The command that is due, which leads back to this address in register 14.
    Command(u32),
    /// Instructions, from this machine on.
    Instructions(KeptMachine),
}

/// What a task's next turn does.
fn next_work<S: Store>(alloc: Global, store: &S, task: &Task) -> Result<Work, AllocError>
    ensures { IfOk result (λ work. work ≡ next_work (S.storage store.now) task.now) }
{
    if task.due {
        return Ok(Work::Command(address_in(task.cpu.regs[14])));
    }
    Ok(Work::Instructions(KeptMachine::take(alloc, &task.cpu, store)?))
}

/// What a terminal's next turn does.
fn turn_work<S: Store + Drop>(
    alloc: Global,
    region: &Region<S>,
    name: Name4,
) -> Result<Work, AllocError>
    ensures { IfOk result (λ work. work ≡ work_of region.now (cause_kind.Turn name)) }
{
    match task_of(region, name) {
        Some(task) => next_work(alloc, &region.shared().store, task),
        None => Ok(Work::Nothing),
    }
}

/// What is done next at a region: what a turn of a terminal does, where it is one; else nothing of a program.
///
/// An error comes only where memory for its storage was refused.
pub fn work_of<S: Store + Drop>(
    alloc: Global,
    region: &Region<S>,
    cause: &Cause,
) -> Result<Work, AllocError>
    ensures { IfOk result (λ work. work ≡ work_of region.now cause.now) }
{
    match cause {
        Cause::Turn(name) => turn_work(alloc, region, *name),
        _ => Ok(Work::Nothing),
    }
}

/// The bytes of a range, where the store lends them at once.
#[inline(always)]
fn part_of<S: Store>(store: &S, range: Row) -> Option<&[u8]>
    ensures { IfSome result (λ part. AreBytes (shown_in (S.storage store.now) range) part.now) }
{
    if range.at >= 0x100_0000 || range.length > 65_536 {
        return None;
    }
    store_is_sound(store);
    let part = store.slice_fast(range.at, range.length as usize)?;
    Some(part)
}

/// A copy of those bytes.
fn copy_of_part<S: Store>(
    alloc: Global,
    store: &S,
    range: Row,
) -> Result<Option<Vec<u8>>, AllocError>
    ensures { let shown = shown_in (S.storage store.now) range in
        IfOk result (λ copy. IfSome copy (λ bytes. AreBytes shown bytes.items)) }
{
    match part_of(store, range) {
        Some(part) => Ok(Some(part.to_vec(alloc)?)),
        None => Ok(None),
    }
}

/// A range that was changed, on the way through a run: its bytes there, as they are shown, and the address of the last
/// instruction so far that changed one of them.
#[derive(Drop)]
pub(crate) struct Seen {
    kept: Kept,
    shown: Vec<u8>,
    /// The bytes themselves, where they were lent at once: they are compared sooner.
    bytes: Option<Vec<u8>>,
    last: Option<u32>,
}

impl Model for Seen {
    ghost use Rattle.std.specs.Prelude.{IfSome};
    ghost use Rattle.cx_look_ahead.specs.Parts.Seen.{AreBytes, SeenRange};

    ghost Value = { SeenRange };

    ghost view = { λ seen. record { kept = seen.kept; shown = seen.shown.items; last = seen.last } };

    ghost invariant = { λ seen. IfSome seen.bytes (λ bytes. AreBytes seen.shown.items bytes.items) };
}

impl Seen {
    /// A range, as no instruction has changed it so far.
    fn of<S: Store>(alloc: Global, store: &S, kept: &Kept) -> Result<Seen, AllocError>
        ensures { IfOk result (λ seen. seen ≡ seen_in (S.storage store.now) kept.now) }
    {
        let range = kept.range;
        Ok(Seen {
            kept: copy_of(alloc, kept)?,
            shown: bytes_word(alloc, store, range.at, range.length)?,
            bytes: copy_of_part(alloc, store, range)?,
            last: None,
        })
    }

    /// The range, with its bytes as they were kept.
    pub(crate) fn kept(&self) -> &Kept
        ensures { result.now ≡ self.now.kept }
    {
        &self.kept
    }

    /// The address of the last instruction that changed one of its bytes.
    pub(crate) fn last(&self) -> Option<u32>
        ensures { result ≡ self.now.last }
    {
        self.last
    }

    /// Whether the bytes are as they were seen last, where they are lent at once.
    #[tactic(auto, using(crate::proofs::ByteLemmas::compared_alike))]
    #[inline(always)]
    fn is_same_lent<S: Store>(&self, store: &S) -> Option<bool>
        ensures { let now = shown_in (S.storage store.now) self.now.kept.range in
            IfSome result (λ same. same ≡ bytes_eq self.now.shown now) }
    {
        let bytes = self.bytes.as_ref()?;
        let part = part_of(store, self.kept.range)?;
        Some(are_same(bytes.as_slice(), part))
    }

    /// Whether the bytes are as they were seen last.
    fn is_same<S: Store>(&self, alloc: Global, store: &S) -> Result<bool, AllocError>
        ensures { let now = shown_in (S.storage store.now) self.now.kept.range in
            IfOk result (λ same. same ≡ bytes_eq self.now.shown now) }
    {
        if let Some(same) = self.is_same_lent(store) {
            return Ok(same);
        }
        let range = self.kept.range;
        let now = bytes_word(alloc, store, range.at, range.length)?;
        Ok(are_same(self.shown.as_slice(), &now))
    }

    /// Notes an instruction, where the bytes aren't as they were before it.
    fn note<S: Store>(&mut self, alloc: Global, store: &S, at: u32) -> Result<(), AllocError>
        ensures { OnOk result (self.new ≡ noted (S.storage store.now) at self.old) }
    {
        if self.is_same(alloc, store)? {
            return Ok(());
        }
        let range = self.kept.range;
        let shown = bytes_word(alloc, store, range.at, range.length)?;
        let bytes = copy_of_part(alloc, store, range)?;
        self.shown = shown;
        self.bytes = bytes;
        self.last = Some(at);
        Ok(())
    }
}

/// Ranges, as no instruction has changed them so far.
fn all_seen<S: Store>(alloc: Global, store: &S, kept: &[Kept]) -> Result<Vec<Seen>, AllocError>
    ensures { IfOk result (λ seen. seen.items ≡ map (seen_in (S.storage store.now)) kept.now) }
{
    let mut seen = Vec::new(alloc);
    for it in kept {
        seen.push(Seen::of(alloc, store, it)?)?;
    }
    Ok(seen)
}

/// Notes an instruction at each range whose bytes aren't as they were before it.
fn note_all<S: Store>(
    alloc: Global,
    store: &S,
    at: u32,
    seen: &mut Vec<Seen>,
) -> Result<(), AllocError>
    ensures { OnOk result (seen.new.items ≡ map (noted (S.storage store.now) at) seen.old.items) }
{
    for it in seen.iter_mut() {
        it.note(alloc, store, at)?;
    }
    Ok(())
}

/// Ranges that were changed, on the way through a run.
#[derive(Drop)]
struct SeenRanges {
    alloc: Global,
    seen: Vec<Seen>,
}

impl Model for SeenRanges {
    ghost use Rattle.std.specs.Prelude.{List};
    ghost use Rattle.cx_look_ahead.specs.Parts.Seen.{SeenRange};

    ghost Value = { List SeenRange };

    ghost view = { λ it. it.seen.items };
}

impl SeenRanges {
    /// Those ranges. It takes no memory.
    fn with_seen(alloc: Global, seen: Vec<Seen>) -> SeenRanges
        ensures { result ≡ seen.items }
    {
        SeenRanges { alloc, seen }
    }

    /// The ranges.
    fn into_seen(self) -> Vec<Seen>
        ensures { result.items ≡ self }
    {
        self.seen
    }
}

impl Watcher for SeenRanges {
    ghost use Rattle.cx_look_ahead.specs.Facts.Seen.{all_follow, all_stay};
    ghost use Rattle.cx_look_ahead.specs.Parts.Seen.{AreSeenIn, all_noted};

    ghost is_of = { AreSeenIn };

    ghost noted = { all_noted };

    #[inline(never)]
    fn note<S: Store>(&mut self, store: &S, at: u32) -> Result<(), AllocError> {
        note_all(self.alloc, store, at, &mut self.seen)
    }

    ghost follows = { all_follow };

    ghost stays = { all_stay };
}

/// Runs a machine as a turn does, and gives ranges, each with the address of the last instruction that changes one of
/// its bytes; None where none does.
///
/// An error comes only where memory for the bytes of the ranges was refused.
pub(crate) fn last_writers<S: Store + Drop>(
    alloc: Global,
    machine: &mut TurnMachine<S>,
    kept: &[Kept],
) -> Result<Vec<Seen>, AllocError>
    ensures writers { IfOk result (λ seen. AllByRecursion (IsLastSeen most_steps machine.old) seen.items) }
    ensures kept { IfOk result (λ seen. map (λ it. it.kept) seen.items ≡ kept.now) }
    ensures leaves { OnOk result (Leaves most_steps machine.old machine.new) }
{
    steps_decide();
    let first = machine.store();
    store_is_sound(first);
    let seen = all_seen(alloc, first, kept)?;
    let mut ranges = SeenRanges::with_seen(alloc, seen);
    machine.run_watched(&mut ranges)?;
    Ok(ranges.into_seen())
}
