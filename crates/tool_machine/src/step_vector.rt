//! A line of the steps.

use byteorder::{BigEndian, ByteOrder};
use cx_exec::Cpu;
use std::alloc::{AllocError, Global};

/// An area: the address of its first byte, and its bytes.
#[derive(Drop)]
pub struct VectorBlock {
    pub start: u32,
    pub bytes: Vec<u8>,
}

/// What is to be done: one step, or a run of at most a given number.
#[derive(Clone, Copy)]
pub enum Task {
    /// One step.
    Step,
    /// A run of at most `limit` instructions, of which `steps` are performed.
    Run { limit: u32, steps: u32 },
}

/// A machine before, and how the vector says that it ends.
#[derive(Drop)]
pub struct Vector<'a> {
    /// The registers, the condition code and the next address before.
    pub before: Cpu,
    /// The areas of storage before.
    pub blocks: Vec<VectorBlock>,
    /// What is done.
    pub task: Task,
    /// How it ends.
    pub end: &'a str,
    /// The registers, the condition code and the next address after.
    pub after: Cpu,
    /// The areas that have other bytes after, with these.
    pub changed: Vec<VectorBlock>,
}

/// A processor from its three fields: next address, condition code, sixteen registers.
fn cpu_of(next: &str, cc: &str, regs: &str) -> Option<Cpu> {
    let next = u32::from_str_radix(next, 16).ok()?;
    let cc = u8::from_str_radix(cc, 10).ok()?;
    if cc > 3 || next >= 0x100_0000 {
        return None;
    }
    let mut bytes = [0; 64];
    hex::decode_to_slice(regs, &mut bytes).ok()?;
    let mut words = [0; 16];
    for i in 0..16 {
        words[i] = BigEndian::read_u32(&bytes[4 * i..]);
    }
    Some(Cpu {
        regs: words,
        cc,
        next,
    })
}

/// One area, written `address:bytes`.
fn block_of(alloc: Global, text: &str) -> Result<Option<VectorBlock>, AllocError> {
    let Some((start, digits)) = text.split_once(':') else {
        return Ok(None);
    };
    let Ok(start) = u32::from_str_radix(start, 16) else {
        return Ok(None);
    };
    let mut bytes = vec![in alloc; 0; digits.len() / 2]?;
    if hex::decode_to_slice(digits, bytes.as_mut_slice()).is_err() {
        return Ok(None);
    }
    Ok(Some(VectorBlock { start, bytes }))
}

/// Areas, joined by commas; `-` is none.
fn blocks_of(alloc: Global, text: &str) -> Result<Option<Vec<VectorBlock>>, AllocError> {
    let mut blocks = Vec::new(alloc);
    if text == "-" {
        return Ok(Some(blocks));
    }
    for part in text.split(',') {
        let Some(block) = block_of(alloc, part)? else {
            return Ok(None);
        };
        blocks.push(block)?;
    }
    Ok(Some(blocks))
}

/// What a line says, or None where it can't be read. Its words are a name; the machine before; for a run the most
/// steps; `=`; how it ends; for a run after how many steps; and the machine after, of its areas only those with other
/// bytes.
pub fn vector_of(alloc: Global, line: &str) -> Result<Option<Vector<'_>>, AllocError> {
    let words: Vec<&str> = line.split(' ').collect(alloc)?;
    let [_, at, cc, regs, blocks, rest @ ..] = words.as_slice() else {
        return Ok(None);
    };
    let (task, end, after) = match rest {
        ["=", end, after @ ..] => (Some(Task::Step), *end, after),
        [limit, "=", end, steps, after @ ..] => (run_of(limit, steps), *end, after),
        _ => return Ok(None),
    };
    let (Some(task), [next, code, words, changed]) = (task, after) else {
        return Ok(None);
    };
    let (Some(before), Some(after)) = (cpu_of(at, cc, regs), cpu_of(next, code, words)) else {
        return Ok(None);
    };
    let Some(blocks) = blocks_of(alloc, blocks)? else {
        return Ok(None);
    };
    let Some(changed) = blocks_of(alloc, changed)? else {
        return Ok(None);
    };
    Ok(Some(Vector {
        before,
        blocks,
        task,
        end,
        after,
        changed,
    }))
}

/// A run of at most `limit` steps, which takes `steps`.
fn run_of(limit: &str, steps: &str) -> Option<Task> {
    let limit = limit.parse().ok()?;
    let steps = steps.parse().ok()?;
    Some(Task::Run { limit, steps })
}
