//! Runs of steps.

ghost use Rattle.std.specs.Prelude.{◌≢◌, Some, MatchOption};
ghost use Rattle.cx_exec.specs.Machine.{machine};
ghost use Rattle.cx_exec.specs.Advance.{Passes, Advances};
ghost use Rattle.cx_exec.specs.declared.machine.Halt.TheVariants as halt;

use crate::machine::{ENTRY, Halt};
use crate::places::Place;
use crate::rows::{
    half_rows, immediate_rows, in_group, indexed_rows, register_rows, register_storage_rows,
    strings_effect, word_result_rows, word_rows,
};
use crate::stepping::{execute_found, fetch_fast, step_slow};
use cx_code::{Cpu, Op};
use cx_storage::Store;

/// The most steps of a round.
const ROUND: u32 = 256;

/// Performs one instruction, wherever it lies.
#[tactic(auto, using(crate::proofs::RunLemmas::one_done, crate::proofs::RunLemmas::one_interrupted, crate::proofs::RunLemmas::none_at_entry))]
#[cold]
#[inline(never)]
fn pass_slow<S: Store>(cpu: &mut Cpu, store: &mut S) -> Option<Halt>
    ensures run { let before = machine cpu.old (S.storage store.old) in
        let after = machine cpu.new (S.storage store.new) in
        MatchOption result (Passes 1 before after) (λ end. Advances 1 before end after) }
    ensures ended { result ≢ Some halt.Limit }
{
    if cpu.next == ENTRY {
        return Some(Halt::AtEntry);
    }
    match step_slow(cpu, store) {
        Ok(()) => None,
        Err(cause) => Some(Halt::Interrupt(cause, cpu.next)),
    }
}

/// Performs `steps` instructions, or fewer where the entry is the next address or one is interrupted.
#[tactic(auto, using(crate::proofs::RunLemmas::round_ends, crate::proofs::RunLemmas::run_more, crate::proofs::RunLemmas::run_interrupt))]
fn pass<S: Store>(cpu: &mut Cpu, store: &mut S, steps: u32) -> Option<Halt>
    ensures run { let before = machine cpu.old (S.storage store.old) in
        let after = machine cpu.new (S.storage store.new) in
        MatchOption result (Passes steps before after) (λ end. Advances steps before end after) }
    ensures ended { result ≢ Some halt.Limit }
{
    let mut left = steps;
    while left > 0 {
        left -= 1;
        let Some(found) = fetch_fast(cpu, store) else {
            if let Some(end) = pass_slow(cpu, store) {
                return Some(end);
            }
            continue;
        };
        let place = Place {
            from: cpu.next,
            given: None,
        };
        // Each arm goes on or ends by itself, since results that were joined would be taken apart again.
        macro_rules! go_on_after {
            ($performed:expr) => {
                match $performed {
                    Ok(()) => {}
                    Err(cause) => return Some(Halt::Interrupt(cause, cpu.next)),
                }
            };
        }
        macro_rules! perform {
            ($rows:ident) => {
                go_on_after!($rows(cpu, store, found.op, &found.prefix, place))
            };
        }
        in_group!(
            found.op,
            perform,
            go_on_after!(execute_found(cpu, store, &found.prefix))
        )
    }
    None
}

/// A round: the processor is held apart through it, and put back at its end, whichever way it ends.
fn round<S: Store>(cpu: &mut Cpu, store: &mut S, steps: u32) -> Option<Halt>
    ensures run { let before = machine cpu.old (S.storage store.old) in
        let after = machine cpu.new (S.storage store.new) in
        MatchOption result (Passes steps before after) (λ end. Advances steps before end after) }
    ensures ended { result ≢ Some halt.Limit }
{
    let mut held = Cpu {
        regs: cpu.regs,
        cc: cpu.cc,
        next: cpu.next,
    };
    let end = pass(&mut held, store, steps);
    *cpu = held;
    end
}

/// Performs instructions until the entry is the next address (AtEntry), one is interrupted, or as many as
/// the limit were performed without either (Limit). At the entry after just as many, the answer is AtEntry.
/// The address of Interrupt is the next one that the processor is left with.
#[tactic(auto, using(crate::proofs::RunLemmas::round_ends, crate::proofs::RunLemmas::round_passes), unfolding(crate::specs::Advance::Advances))]
pub fn advance<S: Store>(cpu: &mut Cpu, store: &mut S, limit: u32) -> Halt
    ensures { Advances limit (machine cpu.old (S.storage store.old)) result (machine cpu.new (S.storage store.new)) }
{
    let mut left = limit;
    while left > 0 {
        let steps = left.min(ROUND);
        if let Some(end) = round(cpu, store, steps) {
            return end;
        }
        left -= steps;
    }
    if cpu.next == ENTRY {
        Halt::AtEntry
    } else {
        Halt::Limit
    }
}
