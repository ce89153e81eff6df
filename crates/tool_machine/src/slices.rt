//! A program whose slices are performed.

use cx_exec::{Cpu, Halt, Step, advance, step};
use cx_storage::{Kind, Owner, Store, address_in};
use std::alloc::AllocError;

/// An image, entered at its first byte, and how many slices, at least 2, are to be performed.
#[derive(Drop)]
pub struct Job {
    pub image: Vec<u8>,
    pub slices: u32,
}

const OWNER: Owner = Owner {
    slot: 1,
    kind: Kind::Fixed,
};

/// Where the image is, and where the working storage is, with its length in bytes.
const IMAGE: u32 = 0x1_0000;

const WORK: u32 = 0x2_0000;

const WORK_LEN: u32 = 2048;

/// No slice has more instructions.
const LIMIT: u32 = 65_536;

/// Loads the image with the number of slices in it. False where it can't be there.
fn load<S: Store>(store: &mut S, job: &Job) -> Result<bool, AllocError> {
    let len = job.image.len();
    if len < 8 || len > 4096 {
        return Ok(false);
    }
    store.get_area(IMAGE, WORK - 1, len as u32, OWNER)?;
    store.get_area(WORK, WORK + WORK_LEN - 1, WORK_LEN, OWNER)?;
    Ok(store.write(IMAGE, &job.image) && store.write(IMAGE + 4, &job.slices.to_be_bytes()))
}

/// Goes on after a call of the entry.
fn go_on(cpu: &mut Cpu) {
    cpu.next = address_in(cpu.regs[14]);
}

/// Performs a slice in single steps and counts them. None where it doesn't come to the entry.
fn count_slice<S: Store>(cpu: &mut Cpu, store: &mut S) -> Option<u64> {
    for done in 0..LIMIT {
        match step(cpu, store) {
            Step::Done => {}
            Step::AtEntry => {
                go_on(cpu);
                return Some(u64::from(done));
            }
            Step::Interrupt(_) => return None,
        }
    }
    None
}

/// Performs `slices` slices. False where one doesn't come to the entry.
fn advance_slices<S: Store>(cpu: &mut Cpu, store: &mut S, slices: u32) -> bool {
    for _k in 0..slices {
        match advance(cpu, store, LIMIT) {
            Halt::AtEntry => go_on(cpu),
            _ => return false,
        }
    }
    true
}

/// Performs a job, and returns how many instructions that took: the first two slices and what comes after the last are
/// counted, and all slices from the second on take as many as that. None where there are fewer than two slices, the
/// image has no place, or a slice doesn't come to the entry.
pub fn perform<S: Store>(store: &mut S, job: &Job) -> Result<Option<u64>, AllocError> {
    if job.slices < 2 || !load(store, job)? {
        return Ok(None);
    }
    let mut regs = [0; 16];
    regs[3] = IMAGE;
    regs[13] = WORK;
    let mut cpu = Cpu {
        regs,
        cc: 0,
        next: IMAGE,
    };
    let Some(first) = count_slice(&mut cpu, store) else {
        return Ok(None)
    };
    let Some(second) = count_slice(&mut cpu, store) else {
        return Ok(None)
    };
    if !advance_slices(&mut cpu, store, job.slices - 2) {
        return Ok(None);
    }
    let Some(last) = count_slice(&mut cpu, store) else {
        return Ok(None)
    };
    Ok(Some(
        second
            .wrapping_mul(u64::from(job.slices - 1))
            .wrapping_add(first)
            .wrapping_add(last),
    ))
}
