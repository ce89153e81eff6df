//! Runs of steps each of which is noted.

ghost use Rattle.std.specs.Prelude.{◌≡◌, false, IfOk, MatchOption, OnOk};
ghost use Rattle.cx_code.specs.Table.{stores};
ghost use Rattle.cx_exec.specs.Advance.{Advances};
ghost use Rattle.cx_exec.specs.Machine.{machine};
ghost use Rattle.cx_exec.specs.Parts.{IsNoted, NotesAll, NotesOn, NotesStep};
ghost use Rattle.cx_exec.specs.Step.{Steps};
ghost use Rattle.cx_exec.specs.Watches.{IsWatched};

use crate::machine::{ENTRY, Halt, Interruption, Step};
use crate::places::Place;
use crate::rows::{
    half_rows, immediate_rows, in_group, indexed_rows, register_rows, register_storage_rows,
    strings_effect, word_result_rows, word_rows,
};
use crate::stepping::{execute_found, fetch_fast, step_slow};
use cx_code::{Cpu, Op};
use cx_storage::Store;
use cx_storage::laws::store_is_sound;
use std::alloc::AllocError;

/// What notes the instructions of a run. Of one that leaves storage as it was nothing is noted, so that it isn't called
/// after each.
pub trait Watcher {
    ghost use Rattle.std.specs.Prelude.{ℕ};
    ghost use Rattle.cx_storage.specs.Storage.{Storage};

    /// What it holds is of a storage.
    ghost is_of: { Storage → Self → Type 0 };

    /// What it holds after an instruction at an address that leaves a storage.
    ghost noted: { Storage → ℕ → Self → Self };

    /// Notes an instruction at an address, after which the store is as it is now.
    ///
    /// An error comes only where an allocation failed; what is held then isn't promised.
    fn note<S: Store>(&mut self, store: &S, at: u32) -> Result<(), AllocError>
        ensures { OnOk result (self.new ≡ noted (S.storage store.now) at self.old) };

    /// What it holds after an instruction is of the storage that this leaves.
    ghost follows: { (s : Storage) (at : ℕ) (held : Self) → is_of s (noted s at held) };

    /// Nothing is noted of an instruction that leaves storage as it was.
    ghost stays: { (s : Storage) (at : ℕ) (held : Self) → is_of s held → held ≡ noted s at held };
}

/// Notes an instruction.
#[inline(always)]
fn note<S: Store, W: Watcher>(watcher: &mut W, store: &S, at: u32) -> Result<(), AllocError>
    ensures { let s = S.storage store.now in OnOk result (IsNoted W.noted W.is_of s at watcher.old watcher.new) }
{
    store_is_sound(store);
    watcher.note(store, at)
}

/// An instruction that left storage as it was is noted by doing nothing.
#[inline(always)]
fn note_none<S: Store, W: Watcher>(_watcher: &W, store: &S, _at: u32)
    requires { W.is_of (S.storage store.now) _watcher.now }
    ensures { IsNoted W.noted W.is_of (S.storage store.now) _at _watcher.now _watcher.now }
{
    store_is_sound(store);
}

/// Notes an instruction, unless its row doesn't store.
#[inline(always)]
fn note_stored<S: Store, W: Watcher>(
    watcher: &mut W,
    store: &S,
    op: Op,
    at: u32,
) -> Result<(), AllocError>
    requires { stores op ≡ false → W.is_of (S.storage store.now) watcher.old }
    ensures { let s = S.storage store.now in OnOk result (IsNoted W.noted W.is_of s at watcher.old watcher.new) }
{
    if op.stores() {
        return note(watcher, store, at);
    }
    note_none(watcher, store, at);
    Ok(())
}

/// Notes an instruction that was interrupted, after which a run ends.
#[cold]
#[inline(never)]
fn note_last<S: Store, W: Watcher>(watcher: &mut W, store: &S, at: u32) -> Result<(), AllocError>
    ensures { let s = S.storage store.now in OnOk result (IsNoted W.noted W.is_of s at watcher.old watcher.new) }
{
    note(watcher, store, at)
}

/// Performs one instruction, wherever it lies, unless the next address is the entry, and notes it.
#[tactic(auto, unfolding(crate::specs::Step::Steps))]
#[cold]
#[inline(never)]
fn pass_slow<S: Store, W: Watcher>(
    cpu: &mut Cpu,
    store: &mut S,
    watcher: &mut W,
) -> Result<Step, AllocError>
    ensures steps { let before = machine cpu.old (S.storage store.old) in
        IfOk result (λ step. Steps before step (machine cpu.new (S.storage store.new))) }
    ensures noted { let s = S.storage store.new in
        IfOk result (λ step. NotesStep W.noted W.is_of s cpu.old.next step watcher.old watcher.new) }
{
    if cpu.next == ENTRY {
        return Ok(Step::AtEntry);
    }
    let at = cpu.next;
    let performed = step_slow(cpu, store);
    note(watcher, store, at)?;
    match performed {
        Ok(()) => Ok(Step::Done),
        Err(cause) => Ok(Step::Interrupt(cause)),
    }
}

/// Performs `steps` instructions, or fewer where the entry is the next address or one is interrupted, and notes them.
fn pass<S: Store, W: Watcher>(
    cpu: &mut Cpu,
    store: &mut S,
    watcher: &mut W,
    steps: u32,
) -> Result<Option<Halt>, AllocError>
    requires { W.is_of (S.storage store.old) watcher.old }
    ensures { let before = machine cpu.old (S.storage store.old) in
        let after = machine cpu.new (S.storage store.new) in
        IfOk result (λ halt. MatchOption halt (NotesOn W.noted steps before after watcher.old watcher.new)
        (λ end. NotesAll W.noted steps before end after watcher.old watcher.new)) }
{
    let mut left = steps;
    while left > 0 {
        left -= 1;
        let Some(found) = fetch_fast(cpu, store) else {
            let end = pass_slow(cpu, store, watcher)?;
            match end {
                Step::Done => continue,
                Step::AtEntry => return Ok(Some(Halt::AtEntry)),
                Step::Interrupt(cause) => return Ok(Some(Halt::Interrupt(cause, cpu.next))),
            }
        };
        let at = cpu.next;
        let place = Place {
            from: at,
            given: None,
        };
        // Each arm goes on or ends by itself, since results that were joined would be taken apart again.
        macro_rules! go_on_after {
            ($performed:expr, $noted:expr) => {
                match $performed {
                    Ok(()) => $noted,
                    Err(cause) => {
                        note_last(watcher, store, at)?;
                        return Ok(Some(Halt::Interrupt(cause, cpu.next)));
                    }
                }
            };
        }
        macro_rules! keeping {
            ($rows:ident) => {
                go_on_after!(
                    $rows(cpu, store, found.op, &found.prefix, place),
                    note_none(watcher, store, at)
                )
            };
        }
        macro_rules! perform {
            (register_rows) => {
                keeping!(register_rows)
            };
            (word_rows) => {
                keeping!(word_rows)
            };
            (word_result_rows) => {
                keeping!(word_result_rows)
            };
            (half_rows) => {
                keeping!(half_rows)
            };
            ($rows:ident) => {
                go_on_after!(
                    $rows(cpu, store, found.op, &found.prefix, place),
                    note_stored(watcher, store, found.op, at)?
                )
            };
        }
        in_group!(
            found.op,
            perform,
            go_on_after!(
                execute_found(cpu, store, &found.prefix),
                note(watcher, store, at)?
            )
        )
    }
    Ok(None)
}

/// A round: the processor is held apart through it, and put back at its end, whichever way it ends.
fn round<S: Store, W: Watcher>(
    cpu: &mut Cpu,
    store: &mut S,
    watcher: &mut W,
    steps: u32,
) -> Result<Option<Halt>, AllocError>
    requires { W.is_of (S.storage store.old) watcher.old }
    ensures { let before = machine cpu.old (S.storage store.old) in
        let after = machine cpu.new (S.storage store.new) in
        IfOk result (λ halt. MatchOption halt (NotesOn W.noted steps before after watcher.old watcher.new)
        (λ end. NotesAll W.noted steps before end after watcher.old watcher.new)) }
{
    let mut held = Cpu {
        regs: cpu.regs,
        cc: cpu.cc,
        next: cpu.next,
    };
    let end = pass(&mut held, store, watcher, steps);
    *cpu = held;
    end
}

/// Performs instructions as `advance` does, and has each of them noted, also one that is interrupted. What the watcher
/// holds at first is of the store.
///
/// An error comes only where an allocation of the watcher failed; where the run is then isn't promised.
#[tactic(auto, using(crate::proofs::WatchLemmas::all_at_entry, crate::proofs::WatchLemmas::all_at_limit, crate::proofs::WatchLemmas::all_watched))]
pub fn advance_watched<S: Store, W: Watcher>(
    cpu: &mut Cpu,
    store: &mut S,
    watcher: &mut W,
    limit: u32,
) -> Result<Halt, AllocError>
    requires of { W.is_of (S.storage store.old) watcher.old }
    ensures run { let before = machine cpu.old (S.storage store.old) in
        IfOk result (λ halt. Advances limit before halt (machine cpu.new (S.storage store.new))) }
    ensures watched { let before = machine cpu.old (S.storage store.old) in
        OnOk result (IsWatched W.noted limit before watcher.old watcher.new) }
{
    if let Some(end) = round(cpu, store, watcher, limit)? {
        return Ok(end);
    }
    if cpu.next == ENTRY {
        return Ok(Halt::AtEntry);
    }
    Ok(Halt::Limit)
}
