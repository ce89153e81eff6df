//! The instructions that a run comes to.
ghost use Rattle.std.specs.Prelude.{◌≡◌, ◌+◌, ◌<◌, ◌^◌, ◌++◌, ◌∷◌, [], IfOk, OnErr, OnOk};
ghost use Rattle.circular_buffer.specs.Buffer.{buffer, keep_last};
ghost use Rattle.cx_exec.specs.Machine.{machine};
ghost use Rattle.cx_exec.specs.Step.{Steps};
ghost use Rattle.cx_look_turn.specs.Traces.{IsTrace, Leaves, visit};
ghost use Rattle.cx_look_turn.specs.Parts.Runs.{count_after, last_after};

use crate::code::{Code, code_at};
use circular_buffer::HeapCircularBuffer;
use cx_exec::{Cpu, Step, step};
use cx_storage::Store;
use std::alloc::{AllocError, Global};

/// An instruction that is performed, or interrupted: its address, and its bytes, where they are in storage then.
#[derive(Drop)]
pub struct Visit {
    pub at: u32,
    pub code: Option<Code>,
}

/// The instructions that a run comes to: how many there are, and the last of them, in their order.
#[derive(Drop)]
pub struct Trace {
    pub count: u32,
    pub last: HeapCircularBuffer<Visit>,
}

impl Trace {
    /// Adds an instruction; the first one that is kept goes, where no more can be kept.
    fn push(&mut self, visit: Visit)
        requires { self.old.count + 1 < 2 ^ 32 }
        ensures count { self.new.count ≡ self.old.count + 1 }
        ensures last { let last = self.old.last in
            self.new.last ≡ buffer (keep_last last.capacity (last.items ++ visit ∷ [])) last.capacity }
    {
        self.count += 1;
        self.last.push_back(visit);
    }
}

/// The instruction at the next address.
pub fn instruction_at<S: Store>(cpu: &Cpu, store: &S) -> Visit
    ensures { result ≡ visit (machine cpu.now (S.storage store.now)) }
{
    Visit {
        at: cpu.next,
        code: code_at(store, cpu.next),
    }
}

/// Performs an instruction, and adds it to those before it, unless the next address is the entry.
fn pass<S: Store>(cpu: &mut Cpu, store: &mut S, trace: &mut Trace) -> Step
    requires { trace.old.count + 1 < 2 ^ 32 }
    ensures steps { Steps (machine cpu.old (S.storage store.old)) result (machine cpu.new (S.storage store.new)) }
    ensures count { trace.new.count ≡ count_after result trace.old.count }
    ensures last { let one = visit (machine cpu.old (S.storage store.old)) in
        trace.new.last ≡ last_after result one trace.old.last }
{
    let it = instruction_at(cpu, store);
    let end = step(cpu, store);
    match end {
        Step::AtEntry => {}
        Step::Done | Step::Interrupt(_) => trace.push(it),
    }
    end
}

/// The instructions that a processor comes to over a store until the entry is the next address, one is interrupted, or
/// it has performed as many as the limit: how many they are, with the one that is interrupted, and the last of them, at
/// most `most`. The processor and the store are left as the run leaves them.
///
/// An error comes only where memory for the last ones was refused, before the first instruction.
#[tactic(auto, using(crate::specs::Facts::Left::passes_none))]
pub fn trace_run<S: Store>(
    alloc: Global,
    cpu: &mut Cpu,
    store: &mut S,
    limit: u32,
    most: usize,
) -> Result<Trace, AllocError>
    ensures trace { let m = machine cpu.old (S.storage store.old) in
        IfOk result (λ trace. IsTrace limit m most trace.count trace.last.items) }
    ensures leaves { let m = machine cpu.old (S.storage store.old) in
        OnOk result (Leaves limit m (machine cpu.new (S.storage store.new))) }
    ensures err { let m = machine cpu.old (S.storage store.old) in
        OnErr result (machine cpu.new (S.storage store.new) ≡ m) }
{
    let mut trace = Trace {
        count: 0,
        last: HeapCircularBuffer::with_capacity(alloc, most)?,
    };
    while trace.count < limit {
        match pass(cpu, store, &mut trace) {
            Step::Done => {}
            Step::AtEntry => return Ok(trace),
            Step::Interrupt(_) => return Ok(trace),
        }
    }
    Ok(trace)
}
