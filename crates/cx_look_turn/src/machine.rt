//! The machine of a terminal's next turn.
ghost use Rattle.std.specs.Prelude.{◌≡◌, IfOk, MatchBool, OnErr, OnOk};
ghost use Rattle.cx_exec.specs.Advance.{Advances, Passes};
ghost use Rattle.cx_exec.specs.Machine.{machine};
ghost use Rattle.cx_exec.specs.Step.{Steps};
ghost use Rattle.cx_exec.specs.Tallies.{IsTallied};
ghost use Rattle.cx_exec.specs.Watches.{IsWatched};
ghost use Rattle.cx_region_task.specs.Turn.{most_steps};
ghost use Rattle.cx_look_turn.specs.NextTurn.{IsAhead, IsMachineAfter, machine_ahead};
ghost use Rattle.cx_look_turn.specs.Traces.{ComesPast, IsTrace, Leaves, PassesFewer};

use crate::traces::{Trace, trace_run};
use cx_ebcdic::Name4;
use cx_exec::{Cpu, Halt, Step, Tally, Watcher, advance, advance_tallied, advance_watched, step};
use cx_region::Region;
use cx_storage::Store;
use cx_storage_snapshot::StorageSnapshot;
use std::alloc::{AllocError, Global};
use std::marker::Model;

/// The most instructions of a turn.
pub const MOST_STEPS: u32 = 65_536;

/// A processor like another.
fn cpu_like(cpu: &Cpu) -> Cpu
    ensures regs { result.regs ≡ cpu.now.regs }
    ensures cc { result.cc ≡ cpu.now.cc }
    ensures next { result.next ≡ cpu.now.next }
{
    Cpu {
        regs: cpu.regs,
        cc: cpu.cc,
        next: cpu.next,
    }
}

/// Performs so many instructions.
#[tactic(auto, using(crate::specs::Facts::Left::passes_none))]
fn pass<S: Store>(cpu: &mut Cpu, store: &mut S, count: usize)
    requires { ComesPast (machine cpu.old (S.storage store.old)) count }
    ensures { Passes count (machine cpu.old (S.storage store.old)) (machine cpu.new (S.storage store.new)) }
{
    cx_exec_laws::laws::steps_decide();
    let mut done = 0;
    while done < count {
        let _end = step(cpu, store);
        done += 1;
    }
}

/// Performs so many instructions, and tells whether all of them were done. It ends at the entry, and at one that is
/// interrupted.
#[tactic(auto, using(crate::specs::Facts::Left::passes_none))]
fn pass_all<S: Store>(cpu: &mut Cpu, store: &mut S, count: u32) -> bool
    ensures { let before = machine cpu.old (S.storage store.old) in
        let after = machine cpu.new (S.storage store.new) in
        MatchBool result (Passes count before after) (PassesFewer count before) }
{
    cx_exec_laws::laws::steps_decide();
    let mut passed = 0;
    while passed < count {
        match step(cpu, store) {
            Step::Done => passed += 1,
            Step::AtEntry => return false,
            Step::Interrupt(_) => return false,
        }
    }
    true
}

/// A machine as it was: its processor, and its storage.
#[derive(Drop)]
pub struct KeptMachine {
    cpu: Cpu,
    storage: StorageSnapshot,
}

impl Model for KeptMachine {
    ghost use Rattle.cx_exec.specs.Machine.{Machine, machine};

    ghost Value = { Machine };

    ghost view = { λ it. machine it.cpu it.storage };
}

impl KeptMachine {
    /// A processor over a store, as both are now.
    ///
    /// An error comes only where memory for the store's bytes was refused.
    pub fn take<S: Store>(alloc: Global, cpu: &Cpu, store: &S) -> Result<KeptMachine, AllocError>
        ensures { IfOk result (λ it. it ≡ machine cpu.now (S.storage store.now)) }
    {
        Ok(KeptMachine {
            cpu: cpu_like(cpu),
            storage: StorageSnapshot::take(alloc, store, None)?,
        })
    }

    /// This machine, over a store of its own like another.
    ///
    /// An error comes only where memory for that store was refused.
    pub fn over<S: Store + Drop>(&self, store: &S) -> Result<TurnMachine<S>, AllocError>
        ensures { IfOk result (λ it. it ≡ self.now) }
    {
        Ok(TurnMachine {
            cpu: cpu_like(&self.cpu),
            store: self.storage.store_like(store)?,
        })
    }
}

/// A machine with a store of its own, on which the instructions of a turn are run.
#[derive(Drop)]
pub struct TurnMachine<S: Store + Drop> {
    cpu: Cpu,
    store: S,
}

impl<S: Store + Drop> Model for TurnMachine<S> {
    ghost use Rattle.cx_exec.specs.Machine.{Machine, machine};

    ghost Value = { Machine };

    ghost view = { λ it. machine it.cpu (S.storage it.store) };
}

impl<S: Store + Drop> TurnMachine<S> {
    /// A processor over a store of its own, which is like this one.
    ///
    /// An error comes only where memory for that store was refused.
    pub fn apart(alloc: Global, cpu: &Cpu, store: &S) -> Result<TurnMachine<S>, AllocError>
        ensures { IfOk result (λ it. it ≡ machine cpu.now (S.storage store.now)) }
    {
        KeptMachine::take(alloc, cpu, store)?.over(store)
    }

    /// Its processor.
    pub fn cpu(&self) -> &Cpu
        ensures regs { result.now.regs ≡ self.now.regs }
        ensures cc { result.now.cc ≡ self.now.cc }
        ensures next { result.now.next ≡ self.now.next }
    {
        &self.cpu
    }

    /// Its store.
    pub fn store(&self) -> &S
        ensures { S.storage result.now ≡ self.now.storage }
    {
        &self.store
    }

    /// Performs its next instruction, unless the entry is the next address.
    pub fn step(&mut self) -> Step
        ensures { Steps self.old result self.new }
    {
        step(&mut self.cpu, &mut self.store)
    }

    /// Runs it until the entry is the next address, an instruction is interrupted, or 65,536 are done.
    pub fn run(&mut self) -> Halt
        ensures { Advances most_steps self.old result self.new }
    {
        advance(&mut self.cpu, &mut self.store, MOST_STEPS)
    }

    /// Runs it so, and counts each instruction that it comes to at its address, where the tallies reach that far.
    pub fn run_tallied(&mut self, tallies: &mut [Tally]) -> Halt
        ensures run { Advances most_steps self.old result self.new }
        ensures tallied { IsTallied most_steps self.old tallies.old tallies.new }
    {
        advance_tallied(&mut self.cpu, &mut self.store, tallies, MOST_STEPS)
    }

    /// Runs it so, and has each instruction that it comes to noted. What the watcher holds at first is of its storage.
    ///
    /// An error comes only where an allocation of the watcher failed.
    pub fn run_watched<W: Watcher>(&mut self, watcher: &mut W) -> Result<Halt, AllocError>
        requires of { W.is_of self.old.storage watcher.old }
        ensures run { IfOk result (λ halt. Advances most_steps self.old halt self.new) }
        ensures watched { OnOk result (IsWatched W.noted most_steps self.old watcher.old watcher.new) }
    {
        advance_watched(&mut self.cpu, &mut self.store, watcher, MOST_STEPS)
    }

    /// Runs it so, and gives the instructions that it comes to: how many there are, and the last of them, at most
    /// `most`.
    ///
    /// An error comes only where memory for these was refused, before the first instruction.
    pub fn trace(&mut self, alloc: Global, most: usize) -> Result<Trace, AllocError>
        ensures trace { IfOk result (λ trace. IsTrace most_steps self.old most trace.count trace.last.items) }
        ensures leaves { OnOk result (Leaves most_steps self.old self.new) }
        ensures err { OnErr result (self.new ≡ self.old) }
    {
        trace_run(alloc, &mut self.cpu, &mut self.store, MOST_STEPS, most)
    }

    /// Performs so many of the instructions that it comes to.
    pub fn pass(&mut self, count: usize)
        requires { ComesPast self.old count }
        ensures { Passes count self.old self.new }
    {
        pass(&mut self.cpu, &mut self.store, count);
    }

    /// Performs so many instructions, and tells whether all of them were done. It ends at the entry, and at one that is
    /// interrupted.
    pub fn pass_all(&mut self, count: u32) -> bool
        ensures { MatchBool result (Passes count self.old self.new) (PassesFewer count self.old) }
    {
        pass_all(&mut self.cpu, &mut self.store, count)
    }
}

/// The machine that a terminal's next turn runs on, over a store like the region's, which stays as it is; None where a
/// command is due, or there is no task.
///
/// An error comes only where memory for that store was refused.
pub fn machine_ahead<S: Store + Drop>(
    alloc: Global,
    region: &Region<S>,
    name: Name4,
) -> Result<Option<TurnMachine<S>>, AllocError>
    ensures { IfOk result (λ it. it ≡ machine_ahead region.now name) }
{
    let Some(terminal) = region.terminals().get(&name) else {
        return Ok(None);
    };
    let Some(task) = terminal.task() else {
        return Ok(None);
    };
    if task.due {
        return Ok(None);
    }
    let machine = TurnMachine::apart(alloc, &task.cpu, &region.shared().store)?;
    Ok(Some(machine))
}

/// The machine after so many instructions of a terminal's next turn, over a store like the region's, which stays as it
/// is; None where fewer of them are done, a command is due, or there is no task.
///
/// An error comes only where memory for that store was refused.
#[tactic(auto, unfolding(crate::specs::NextTurn::IsMachineAfter))]
pub fn machine_after<S: Store + Drop>(
    alloc: Global,
    region: &Region<S>,
    name: Name4,
    count: u32,
) -> Result<Option<TurnMachine<S>>, AllocError>
    ensures { IfOk result (λ there. IsMachineAfter (machine_ahead region.now name) count there) }
{
    let Some(mut machine) = machine_ahead(alloc, region, name)? else {
        return Ok(None);
    };
    if !machine.pass_all(count) {
        return Ok(None);
    }
    Ok(Some(machine))
}

/// The instructions that a terminal's next turn comes to, where it runs some: how many there are, and the last of them,
/// at most `most`.
///
/// An error comes only where memory for these, or for a store like the region's, was refused.
#[tactic(auto, unfolding(crate::specs::NextTurn::IsAhead))]
pub fn trace_ahead<S: Store + Drop>(
    alloc: Global,
    region: &Region<S>,
    name: Name4,
    most: usize,
) -> Result<Option<Trace>, AllocError>
    ensures { IfOk result (λ trace. IsAhead region.now name most trace) }
{
    let Some(mut machine) = machine_ahead(alloc, region, name)? else {
        return Ok(None);
    };
    let trace = machine.trace(alloc, most)?;
    Ok(Some(trace))
}
