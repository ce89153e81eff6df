//! Whether the library agrees with a line of the steps.

use crate::step_vector::{Task, Vector, VectorBlock, vector_of};
use cx_exec::{Cpu, Halt, Step, advance, step};
use cx_storage::{Kind, Owner, Store};
use std::alloc::{AllocError, Global};

/// What is said of a line.
pub enum Verdict {
    /// The library ends as the line says.
    Agrees,
    /// It ends otherwise.
    Differs,
    /// The line can't be read, or its areas have no place.
    Skipped,
}

/// The owner of the areas of a vector.
const OWNER: Owner = Owner {
    slot: 1,
    kind: Kind::Fixed,
};

/// Places an area with its bytes. False where it can't be there.
fn place<S: Store>(store: &mut S, block: &VectorBlock) -> Result<bool, AllocError> {
    let len = block.bytes.len();
    if len == 0 || len > 65536 || block.start >= 0x100_0000 {
        return Ok(false);
    }
    let last = block.start + len as u32 - 1;
    if last >= 0x100_0000 {
        return Ok(false);
    }
    if store
        .get_area(block.start, last, len as u32, OWNER)?
        .is_none()
    {
        return Ok(false);
    }
    Ok(store.write(block.start, &block.bytes))
}

/// Whether storage has these bytes.
fn holds<S: Store>(alloc: Global, store: &S, block: &VectorBlock) -> Result<bool, AllocError> {
    let len = block.bytes.len();
    if len > 65536 || block.start >= 0x100_0000 {
        return Ok(false);
    }
    let mut found = vec![in alloc; 0; len]?;
    Ok(store.read(block.start, found.as_mut_slice()) && found.as_slice() == block.bytes.as_slice())
}

/// The bytes that an area is to have in the end.
fn last_of<'a>(vector: &'a Vector<'_>, block: &'a VectorBlock) -> &'a VectorBlock {
    vector
        .changed
        .iter()
        .find(|changed| changed.start == block.start)
        .unwrap_or(block)
}

/// The code of an interruption as the vectors write it.
fn is_code(end: &str, code: u8) -> bool {
    end.parse::<u8>() == Ok(code)
}

/// Performs one instruction, and returns whether it ended as is said.
fn is_step<S: Store>(cpu: &mut Cpu, store: &mut S, end: &str) -> bool {
    match step(cpu, store) {
        Step::Done => end == "-",
        Step::AtEntry => end == "AtEntry",
        Step::Interrupt(cause) => is_code(end, cause.code()),
    }
}

/// A run without what its contract ensures.
fn run<S: Store>(cpu: &mut Cpu, store: &mut S, limit: u32) -> Halt {
    advance(cpu, store, limit)
}

/// Performs `steps` instructions and then the others up to the limit, and returns whether that ended as is said. An
/// interruption comes in the second of the two runs, at the place of the next instruction.
fn is_run<S: Store>(cpu: &mut Cpu, store: &mut S, (limit, steps): (u32, u32), end: &str) -> bool {
    let first = run(cpu, store, steps);
    let halt = match first {
        Halt::Limit => run(cpu, store, limit.saturating_sub(steps)),
        other => other,
    };
    match halt {
        Halt::AtEntry => end == "AtEntry",
        Halt::Limit => end == "Limit",
        Halt::Interrupt(cause, place) => {
            matches!(first, Halt::Limit) && place == cpu.next && is_code(end, cause.code())
        }
    }
}

/// Does what the vector says, and returns whether it ended as the vector says.
fn ends_so<S: Store>(cpu: &mut Cpu, store: &mut S, vector: &Vector<'_>) -> bool {
    match vector.task {
        Task::Step => is_step(cpu, store, vector.end),
        Task::Run { limit, steps } => is_run(cpu, store, (limit, steps), vector.end),
    }
}

/// Places all areas. False where one can't be there.
fn place_all<S: Store>(store: &mut S, blocks: &[VectorBlock]) -> Result<bool, AllocError> {
    for block in blocks {
        if !place(store, block)? {
            return Ok(false);
        }
    }
    Ok(true)
}

/// Whether all areas have the bytes that they are to have in the end.
fn hold_all<S: Store>(alloc: Global, store: &S, vector: &Vector<'_>) -> Result<bool, AllocError> {
    for block in &vector.blocks {
        if !holds(alloc, store, last_of(vector, block))? {
            return Ok(false);
        }
    }
    Ok(true)
}

/// Whether a processor is as another one.
fn is_as(cpu: &Cpu, other: &Cpu) -> bool {
    cpu.regs == other.regs && cpu.cc == other.cc && cpu.next == other.next
}

/// Whether the vector's end is met where its areas are placed.
fn agrees<S: Store>(alloc: Global, store: &mut S, vector: &Vector<'_>) -> Result<bool, AllocError> {
    let mut cpu = Cpu {
        regs: vector.before.regs,
        cc: vector.before.cc,
        next: vector.before.next,
    };
    Ok(
        ends_so(&mut cpu, store, vector)
            && is_as(&cpu, &vector.after)
            && hold_all(alloc, store, vector)?,
    )
}

/// Judges a vector over an empty store.
fn judge_vector<S: Store>(
    alloc: Global,
    store: &mut S,
    vector: &Vector<'_>,
) -> Result<Verdict, AllocError> {
    if !place_all(store, &vector.blocks)? {
        return Ok(Verdict::Skipped);
    }
    Ok(if agrees(alloc, store, vector)? {
        Verdict::Agrees
    } else {
        Verdict::Differs
    })
}

/// Judges a line over an empty store, which it leaves empty.
pub fn judge<S: Store>(alloc: Global, store: &mut S, line: &str) -> Result<Verdict, AllocError> {
    let Some(vector) = vector_of(alloc, line)? else {
        return Ok(Verdict::Skipped);
    };
    let verdict = judge_vector(alloc, store, &vector);
    store.free_slot(OWNER.slot);
    verdict
}
