//! Runs of steps whose instructions are counted.

ghost use Rattle.std.specs.Prelude.{◌≡◌, ◌<◌, ◌^◌, ◌==◌, false, not, IfSome, MatchOption};
ghost use Rattle.std.specs.Option.{option_map_or};
ghost use Rattle.cx_exec.specs.Advance.{Advances};
ghost use Rattle.cx_exec.specs.Machine.{machine};
ghost use Rattle.cx_exec.specs.Parts.{CountsAll, CountsOn, with_done, with_step};
ghost use Rattle.cx_exec.specs.Passages.{following, operand_in, passage, target_of};
ghost use Rattle.cx_exec.specs.Step.{Steps};
ghost use Rattle.cx_exec.specs.Tallies.{IsTallied, tally_after, with_run};

use crate::machine::{ENTRY, Halt, Step};
use crate::places::Place;
use crate::rows::{
    effective, half_rows, immediate_rows, in_group, indexed_of, indexed_rows, register_rows,
    register_storage_rows, strings_effect, word_result_rows, word_rows,
};
use crate::stepping::{execute_found, fetch_fast, step_slow};
use byteorder::{BigEndian, ByteOrder};
use cx_code::{Cpu, Op, instruction_length};
use cx_storage::{Store, address_after};

/// The operation code of EX.
const EXECUTE: u8 = 0x44;

/// How often the instruction at an address was run. Neither count goes beyond 2^64 - 1: it stops there.
#[derive(Clone, Copy)]
pub struct Tally {
    /// How often it was run, the runs that were interrupted among them; the target of an EX at each EX that was done.
    pub runs: u64,
    /// How often it was done and the machine then went elsewhere than on to the instruction that follows: how often a
    /// branch was taken, unless it leads there itself.
    pub away: u64,
}

impl Tally {
    /// With one run more, after which the machine went elsewhere or not.
    #[inline(always)]
    fn after(self, goes_away: bool) -> Tally
        ensures { result ≡ tally_after goes_away self }
    {
        let runs = self.runs.saturating_add(1);
        if !goes_away {
            return Tally {
                runs,
                away: self.away,
            };
        }
        Tally {
            runs,
            away: self.away.saturating_add(1),
        }
    }
}

/// Counts one run of the instruction at an address, where the tallies reach that far.
#[tactic(auto, unfolding(crate::specs::Tallies::with_run))]
#[inline(always)]
fn count(tallies: &mut [Tally], address: u32, goes_away: bool)
    ensures { tallies.new ≡ with_run goes_away tallies.old address }
{
    let place = address as usize;
    if place < tallies.len() {
        tallies[place] = tallies[place].after(goes_away);
    }
}

/// The second operand's address of an instruction of format RX.
fn operand_in(regs: &[u32; 16], code: &[u8; 4]) -> u32
    ensures value { result ≡ operand_in regs.now code.now }
    ensures below_2_24 { result < 2 ^ 24 }
{
    let halfword = BigEndian::read_u16(&code[2..]);
    effective(
        regs,
        code[1] % 16,
        (halfword / 4096) as usize,
        u32::from(halfword % 4096),
    )
}

/// The address of the target of the next instruction, where that is an EX.
#[tactic(auto, unfolding(crate::specs::Passages::target_of))]
fn target_of<S: Store>(cpu: &Cpu, store: &S) -> Option<u32>
    ensures value { result ≡ target_of (machine cpu.now (S.storage store.now)) }
    ensures below_2_24 { IfSome result (λ place. place < 2 ^ 24) }
{
    if store.byte(cpu.next) != Some(EXECUTE) {
        return None;
    }
    let mut code = [0; 4];
    if !store.read(cpu.next, &mut code) {
        return None;
    }
    Some(operand_in(&cpu.regs, &code))
}

/// The address after the next instruction; None where there is no byte of it.
#[tactic(auto, unfolding(crate::specs::Passages::following))]
fn following<S: Store>(cpu: &Cpu, store: &S) -> Option<u32>
    ensures { result ≡ following (machine cpu.now (S.storage store.now)) }
{
    let code = store.byte(cpu.next)?;
    Some(address_after(cpu.next, instruction_length(code) as u32))
}

/// Counts one run of an instruction that was done, and one of its target, if it has one.
fn count_done(tallies: &mut [Tally], at: u32, target: Option<u32>, goes_away: bool)
    ensures { tallies.new ≡ with_done goes_away at target tallies.old }
{
    count(tallies, at, goes_away);
    if let Some(place) = target {
        count(tallies, place, goes_away);
    }
}

/// Whether a machine that is at `now` went elsewhere than on to what follows, where that is known.
fn went_away(following: Option<u32>, now: u32) -> bool
    ensures { result ≡ option_map_or (λ next. not (now == next)) following false }
{
    match following {
        Some(next) => now != next,
        None => false,
    }
}

/// Performs one instruction, wherever it lies, unless the next address is the entry, and counts it.
#[tactic(auto, unfolding(crate::specs::Passages::places_run, crate::specs::Passages::went_away, crate::specs::Step::Steps))]
#[cold]
#[inline(never)]
fn pass_slow<S: Store>(cpu: &mut Cpu, store: &mut S, tallies: &mut [Tally]) -> Step
    ensures steps { Steps (machine cpu.old (S.storage store.old)) result (machine cpu.new (S.storage store.new)) }
    ensures counted { let before = machine cpu.old (S.storage store.old) in
        let after = machine cpu.new (S.storage store.new) in
        tallies.new ≡ with_step tallies.old (passage before result after) result }
{
    if cpu.next == ENTRY {
        return Step::AtEntry;
    }
    let at = cpu.next;
    let target = target_of(cpu, store);
    let next = following(cpu, store);
    match step_slow(cpu, store) {
        Ok(()) => {
            count_done(tallies, at, target, went_away(next, cpu.next));
            Step::Done
        }
        Err(cause) => {
            count(tallies, at, false);
            Step::Interrupt(cause)
        }
    }
}

/// Performs `steps` instructions, or fewer where the entry is the next address or one is interrupted, and counts them.
fn pass<S: Store>(cpu: &mut Cpu, store: &mut S, tallies: &mut [Tally], steps: u32) -> Option<Halt>
    ensures { let before = machine cpu.old (S.storage store.old) in
        let after = machine cpu.new (S.storage store.new) in
        MatchOption result (CountsOn steps before after tallies.old tallies.new)
        (λ end. CountsAll steps before end after tallies.old tallies.new) }
{
    let mut left = steps;
    while left > 0 {
        left -= 1;
        let Some(found) = fetch_fast(cpu, store) else {
            match pass_slow(cpu, store, tallies) {
                Step::Done => continue,
                Step::AtEntry => return Some(Halt::AtEntry),
                Step::Interrupt(cause) => return Some(Halt::Interrupt(cause, cpu.next)),
            }
        };
        let at = cpu.next;
        let place = Place {
            from: at,
            given: None,
        };
        // Each arm goes on or ends by itself, since results that were joined would be taken apart again.
        macro_rules! go_on_after {
            ($performed:expr, $length:literal) => {
                match $performed {
                    Ok(()) => count(tallies, at, cpu.next != at + $length),
                    Err(cause) => {
                        count(tallies, at, false);
                        return Some(Halt::Interrupt(cause, cpu.next));
                    }
                }
            };
        }
        macro_rules! perform {
            (register_rows) => {
                go_on_after!(
                    register_rows(cpu, store, found.op, &found.prefix, place),
                    2
                )
            };
            (strings_effect) => {
                go_on_after!(
                    strings_effect(cpu, store, found.op, &found.prefix, place),
                    6
                )
            };
            ($rows:ident) => {
                go_on_after!($rows(cpu, store, found.op, &found.prefix, place), 4)
            };
        }
        in_group!(
            found.op,
            perform,
            {
                let target = indexed_of(cpu, &found.prefix, place).a;
                match execute_found(cpu, store, &found.prefix) {
                    Ok(()) => count_done(tallies, at, Some(target), cpu.next != at + 4),
                    Err(cause) => {
                        count(tallies, at, false);
                        return Some(Halt::Interrupt(cause, cpu.next));
                    }
                }
            }
        )
    }
    None
}

/// A round: the processor is held apart through it, and put back at its end, whichever way it ends.
fn round<S: Store>(cpu: &mut Cpu, store: &mut S, tallies: &mut [Tally], steps: u32) -> Option<Halt>
    ensures { let before = machine cpu.old (S.storage store.old) in
        let after = machine cpu.new (S.storage store.new) in
        MatchOption result (CountsOn steps before after tallies.old tallies.new)
        (λ end. CountsAll steps before end after tallies.old tallies.new) }
{
    let mut held = Cpu {
        regs: cpu.regs,
        cc: cpu.cc,
        next: cpu.next,
    };
    let end = pass(&mut held, store, tallies, steps);
    *cpu = held;
    end
}

/// Performs instructions as `advance` does, and counts each of them at its address, where the tallies reach that far:
/// also one that is interrupted, and the target of an EX that is done at its own address.
#[tactic(auto, using(crate::proofs::TallyLemmas::all_at_entry, crate::proofs::TallyLemmas::all_at_limit, crate::proofs::TallyLemmas::all_tallied))]
pub fn advance_tallied<S: Store>(
    cpu: &mut Cpu,
    store: &mut S,
    tallies: &mut [Tally],
    limit: u32,
) -> Halt
    ensures run { let before = machine cpu.old (S.storage store.old) in
        Advances limit before result (machine cpu.new (S.storage store.new)) }
    ensures tallied { IsTallied limit (machine cpu.old (S.storage store.old)) tallies.old tallies.new }
{
    if let Some(end) = round(cpu, store, tallies, limit) {
        return end;
    }
    if cpu.next == ENTRY {
        Halt::AtEntry
    } else {
        Halt::Limit
    }
}
