//! One step.

ghost use Rattle.std.specs.Prelude.{◌≡◌, ◌≢◌, ◌+◌, ◌<◌, ◌≤◌, ◌^◌, if◌then◌else◌, None, Some, Ok, IfOk, IfSome, OnSome, MatchResult};
ghost use Rattle.cx_storage.specs.Address.{address_after};
ghost use Rattle.cx_storage.specs.Storage.{Storage};
ghost use Rattle.cx_code.specs.declared.table.Op.TheVariants as op;
ghost use Rattle.cx_code.specs.Table.{length_of};
ghost use Rattle.cx_code.specs.Spelling.{instruction};
ghost use Rattle.cx_code.specs.Reading.{fields_at};
ghost use Rattle.cx_exec.specs.Machine.{machine};
ghost use Rattle.cx_exec.specs.Outcome.{IsSuppressed};
ghost use Rattle.cx_exec.specs.Rows.{Effect};
ghost use Rattle.cx_exec.specs.Parts.{IsPerformed};
ghost use Rattle.cx_exec.specs.Passages.{following, operand_in, target_of};
ghost use Rattle.cx_exec.specs.Step.{entry, changed_copy, is_execute, target_at, updated_by, instruction_to_perform, Runs, Steps};

use crate::fetch::code_at;
use crate::machine::{ENTRY, Interruption, Performed, Step, Updated};
use crate::places::Place;
use crate::prefix::{Prefix, fetched_prefix, op_in};
use crate::rows::{effect, effective, indexed_of, strings_effect};
use cx_code::{Cpu, Fields, Inst, Op};
use cx_storage::{Store, address_after};

/// An instruction to be performed, and what comes after it.
#[derive(Drop)]
pub struct PendingInstruction {
    pub inst: Inst,
    pub updated: Updated,
}

/// A row, and the bytes that its instruction begins with.
#[derive(Drop)]
pub struct Found {
    pub op: Op,
    pub prefix: Prefix,
}

/// The target at `a` (below 2^24) of an EX, from its changed copy. `r1` is below 16.
#[tactic(auto, unfolding(crate::specs::Step::target_at))]
#[inline(always)]
fn target_at<S: Store>(cpu: &Cpu, store: &S, r1: u8, a: u32) -> Result<Inst, Interruption>
    requires first { r1 < 16 }
    requires operand { a < 2 ^ 24 }
    ensures { result ≡ target_at (machine cpu.now (S.storage store.now)) r1 a }
{
    let mut code = code_at(store, a)?;
    if r1 != 0 {
        code.join_second((cpu.regs[r1 as usize] % 256) as u8);
    }
    let target = code.read()?;
    if target.op() == Op::Ex {
        return Err(Interruption::Execute);
    }
    Ok(target)
}

/// The instruction that is performed at the next address: for EX its target.
#[tactic(auto, unfolding(crate::specs::Step::instruction_to_perform))]
#[inline(always)]
fn fetch_slow<S: Store>(cpu: &Cpu, store: &S) -> Result<PendingInstruction, Interruption>
    ensures value { result ≡ instruction_to_perform (machine cpu.now (S.storage store.now)) }
{
    let code = code_at(store, cpu.next)?;
    let updated = Updated {
        length_code: (code.len() / 2) as u8,
        address: address_after(cpu.next, code.len() as u32),
    };
    let inst = code.read()?;
    match inst.fields() {
        Fields::Rx { r1, x2, b2, d2 } if inst.op() == Op::Ex => {
            let a = effective(&cpu.regs, x2, b2 as usize, u32::from(d2));
            let target = target_at(cpu, store, r1, a)?;
            Ok(PendingInstruction {
                inst: target,
                updated: Updated {
                    length_code: 2,
                    address: updated.address,
                },
            })
        }
        _ => Ok(PendingInstruction { inst, updated }),
    }
}

/// The instruction at the next address, where the store has it at hand; that isn't the entry then.
#[inline(always)]
pub(crate) fn fetch_fast<S: Store>(cpu: &Cpu, store: &mut S) -> Option<Found>
    ensures performed { let m = machine cpu.now (S.storage store.new) in
        IfSome result (λ found. IsPerformed m found.op found.prefix) }
    ensures following { let m = machine cpu.now (S.storage store.new) in
        IfSome result (λ found. following m ≡ Some (m.next + length_of found.op)) }
    ensures target { let m = machine cpu.now (S.storage store.new) in
        IfSome result (λ found.
        target_of m ≡ (if is_execute found.op then Some (operand_in m.regs found.prefix) else None)) }
    ensures apart { OnSome result (cpu.now.next ≢ entry) }
    ensures room { OnSome result (cpu.now.next + 8 ≤ 2 ^ 24) }
    ensures same { S.storage store.new ≡ S.storage store.old }
{
    cx_code::laws::first_bits();
    cx_code::laws::read_by_first_byte();
    let prefix = fetched_prefix(store, cpu.next)?;
    let op = op_in(prefix.first())?;
    Some(Found { op, prefix })
}

/// The front of the changed copy of a target.
#[inline(always)]
fn changed_copy(cpu: &Cpu, r1: u8, prefix: Prefix) -> Prefix
    requires { r1 < 16 }
    ensures { (storage : Storage) → result ≡ changed_copy (machine cpu.now storage) r1 prefix }
{
    if r1 == 0 {
        return prefix;
    }
    prefix.with_joined((cpu.regs[r1 as usize] % 256) as u8)
}

/// The target at `a` (below 2^24) of an EX, where the store has it at hand. `r1` is below 16.
#[inline(always)]
fn target_fast<S: Store>(cpu: &Cpu, store: &mut S, r1: u8, a: u32) -> Option<Found>
    requires first { r1 < 16 }
    requires operand { a < 2 ^ 24 }
    ensures found { let target = target_at (machine cpu.now (S.storage store.new)) r1 a in
        IfSome result (λ found. target ≡ Ok (instruction found.op (fields_at found.op found.prefix))) }
    ensures same { S.storage store.new ≡ S.storage store.old }
{
    cx_code::laws::first_bits();
    cx_code::laws::read_by_first_byte();
    let prefix = changed_copy(cpu, r1, fetched_prefix(store, a)?);
    let op = op_in(prefix.first())?;
    if op == Op::Ex {
        return None;
    }
    Some(Found { op, prefix })
}

/// Performs the row `op` except EX, whose bytes begin so, and goes on where that is given.
#[inline(never)]
fn effect_after<S: Store>(
    cpu: &mut Cpu,
    store: &mut S,
    op: Op,
    prefix: Prefix,
    updated: Updated,
) -> Performed
    ensures { let before = machine cpu.old (S.storage store.old) in let after = machine cpu.new (S.storage store.new) in
        Effect (instruction op (fields_at op prefix)) updated before result after }
{
    effect(cpu, store, op, &prefix, Place::after(updated))
}

/// Performs an instruction except EX, and goes on where that is given.
#[cold]
#[inline(never)]
fn perform_slow<S: Store>(cpu: &mut Cpu, store: &mut S, inst: &Inst, updated: Updated) -> Performed
    ensures { let before = machine cpu.old (S.storage store.old) in let after = machine cpu.new (S.storage store.new) in
        Effect inst.now updated before result after }
{
    effect_after(cpu, store, inst.op(), Prefix::with_fields(inst), updated)
}

/// Performs the target at `a` (below 2^24) of an EX, wherever it lies. `r1` is below 16.
#[cold]
#[inline(never)]
fn execute_slow<S: Store>(
    cpu: &mut Cpu,
    store: &mut S,
    r1: u8,
    a: u32,
    updated: Updated,
) -> Performed
    requires first { r1 < 16 }
    requires operand { a < 2 ^ 24 }
    ensures { let before = machine cpu.old (S.storage store.old) in let after = machine cpu.new (S.storage store.new) in
        MatchResult (target_at before r1 a) (λ target. Effect target updated before result after)
        (λ cause. IsSuppressed cause before result after) }
{
    let target = target_at(cpu, store, r1, a)?;
    perform_slow(cpu, store, &target, updated)
}

/// Performs the target at `a` (below 2^24) of an EX at the next address. `r1` is below 16.
#[inline(never)]
fn execute<S: Store>(cpu: &mut Cpu, store: &mut S, r1: u8, a: u32) -> Performed
    requires first { r1 < 16 }
    requires operand { a < 2 ^ 24 }
    ensures { let before = machine cpu.old (S.storage store.old) in let after = machine cpu.new (S.storage store.new) in
        MatchResult (target_at before r1 a) (λ target. Effect target (updated_by cpu.old.next 4) before result after)
        (λ cause. IsSuppressed cause before result after) }
{
    let updated = Updated {
        length_code: 2,
        address: address_after(cpu.next, 4),
    };
    let Some(found) = target_fast(cpu, store, r1, a) else {
        return execute_slow(cpu, store, r1, a, updated);
    };
    match found.op {
        cx_code::rows_of!(Ss) | cx_code::rows_of!(Ss2) => {
            strings_effect(cpu, store, found.op, &found.prefix, Place::after(updated))
        }
        _ => effect_after(cpu, store, found.op, found.prefix, updated),
    }
}

/// Performs an EX at the next address.
#[inline(always)]
pub(crate) fn execute_found<S: Store>(cpu: &mut Cpu, store: &mut S, prefix: &Prefix) -> Performed
    requires performed { IsPerformed (machine cpu.old (S.storage store.old)) op.Ex prefix.now }
    requires room { cpu.old.next + 8 ≤ 2 ^ 24 }
    ensures { Runs (machine cpu.old (S.storage store.old)) result (machine cpu.new (S.storage store.new)) }
{
    let it = indexed_of(cpu, prefix, Place::at(cpu.next));
    execute(cpu, store, it.r1, it.a)
}

/// Performs the instruction at the next address, wherever it lies.
#[tactic(auto, unfolding(crate::specs::Step::Runs))]
#[cold]
#[inline(never)]
pub(crate) fn step_slow<S: Store>(cpu: &mut Cpu, store: &mut S) -> Performed
    ensures { Runs (machine cpu.old (S.storage store.old)) result (machine cpu.new (S.storage store.new)) }
{
    let due = fetch_slow(cpu, store)?;
    perform_slow(cpu, store, &due.inst, due.updated)
}

/// Performs the instruction at the next address.
#[tactic(auto, unfolding(crate::specs::Step::Runs))]
#[inline(never)]
fn run<S: Store>(cpu: &mut Cpu, store: &mut S) -> Performed
    ensures { Runs (machine cpu.old (S.storage store.old)) result (machine cpu.new (S.storage store.new)) }
{
    let Some(found) = fetch_fast(cpu, store) else {
        return step_slow(cpu, store);
    };
    if found.op == Op::Ex {
        return execute_found(cpu, store, &found.prefix);
    }
    effect(cpu, store, found.op, &found.prefix, Place::at(cpu.next))
}

/// Performs the instruction at the next address, unless that is the entry.
///
/// Done: its effect is that of its row, and the instruction is the one that storage holds at that moment; EX
/// performs the changed copy of its target. AtEntry: nothing was fetched, and nothing changed. Interrupt: nothing
/// changed, except the register of a CVB whose number no word holds. Of several causes the first in this order is
/// taken: an odd instruction address (6), a byte of the instruction absent (5), an unknown operation code (1); for EX
/// the target's odd address (6), absent bytes (5), that it is an EX (3), its unknown code (1); then what the row tests:
/// an odd register of a pair (6), operand bytes (5), decimal digits and sign (7), a quotient or a number that does not
/// fit (9).
///
/// Principles of Operation, "Instruction Execution", "Execute", "Program Interruption".
#[tactic(auto, unfolding(crate::specs::Step::Steps))]
#[inline(never)]
pub fn step<S: Store>(cpu: &mut Cpu, store: &mut S) -> Step
    ensures { Steps (machine cpu.old (S.storage store.old)) result (machine cpu.new (S.storage store.new)) }
{
    if cpu.next == ENTRY {
        return Step::AtEntry;
    }
    match run(cpu, store) {
        Ok(()) => Step::Done,
        Err(cause) => Step::Interrupt(cause),
    }
}
