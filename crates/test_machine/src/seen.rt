//! Programs that change themselves, over any store: each byte of the next instruction and of the one after it, after all
//! of them were performed as they were, wherever a page ends. Each answers whether all is as it must be.
ghost use Rattle.std.specs.Prelude.{◌<◌, ◌^◌};

use crate::rows::get;
use cx_exec::{Cpu, Halt, Interruption, Step, advance, step};
use cx_storage::{Kind, Owner, Store, address_in};
use std::alloc::AllocError;

/// Where the area of 16,384 bytes is that has the programs.
const AREA: u32 = 0x01_0000;

/// Where an operand is; register 5 holds the address.
const DATA: u32 = 0x01_0100;

/// An area of its own.
const OTHER_AREA: u32 = 0x02_0000;

const OWNER: Owner = Owner {
    slot: 1,
    kind: Kind::Fixed,
};

/// How a byte is changed.
#[derive(Clone, Copy)]
enum By {
    Stc,
    Mvc,
    Execute,
}

/// A byte of the two instructions by its place, what it was and what it becomes, and what registers 1, 2 and 4 hold
/// then; the program's address is added to the one that is named.
#[derive(Clone, Copy)]
struct Change {
    place: u8,
    was: u8,
    is: u8,
    left: [u32; 3],
    based: u8,
}

/// Of LA 1,1 and LA 2,2.
#[rattlefmt::skip]
const CHANGES: [Change; 8] = [
    // BC 1,1, which code 0 doesn't take
    Change { place: 0, was: 0x41, is: 0x47, left: [0, 2, 0], based: 0 },
    // LA 4,1
    Change { place: 1, was: 0x10, is: 0x40, left: [0, 2, 1], based: 0 },
    // LA 1,1(15)
    Change { place: 2, was: 0x00, is: 0xF0, left: [1, 2, 0], based: 1 },
    // LA 1,7
    Change { place: 3, was: 0x01, is: 0x07, left: [7, 2, 0], based: 0 },
    // BC 2,2
    Change { place: 4, was: 0x41, is: 0x47, left: [1, 0, 0], based: 0 },
    // LA 4,2
    Change { place: 5, was: 0x20, is: 0x40, left: [1, 0, 2], based: 0 },
    // LA 2,2(15)
    Change { place: 6, was: 0x00, is: 0xF0, left: [1, 2, 0], based: 2 },
    // LA 2,7
    Change { place: 7, was: 0x02, is: 0x07, left: [1, 7, 0], based: 0 },
];

/// STC 3, MVC of one byte from the address in register 5, or EX of that MVC, to a place of LA 1,1 and LA 2,2 which
/// follow; and how many bytes these three have.
fn program(by: By, place: u8) -> ([u8; 22], u32) {
    let next = 4 + place % 8;
    let after = 6 + place % 8;
    match by {
        By::Stc => (
            [
                0x42, 0x30, 0xF0, next, 0x41, 0x10, 0, 1, 0x41, 0x20, 0, 2, 0, 0, 0, 0, 0, 0, 0, 0,
                0, 0,
            ],
            12,
        ),
        By::Mvc => (
            [
                0xD2, 0, 0xF0, after, 0x50, 0, 0x41, 0x10, 0, 1, 0x41, 0x20, 0, 2, 0, 0, 0, 0, 0,
                0, 0, 0,
            ],
            14,
        ),
        By::Execute => (
            [
                0x44, 0, 0xF0, 16, 0x41, 0x10, 0, 1, 0x41, 0x20, 0, 2, 0, 0, 0, 0, 0xD2, 0, 0xF0,
                next, 0x50, 0,
            ],
            12,
        ),
    }
}

/// A processor whose next instruction is at an address, which register 15 holds, where register 3 has a byte, and
/// registers 1, 2 and 4 hold these words.
fn cpu_at(next: u32, base: u32, byte: u8, words: [u32; 3]) -> Cpu {
    let mut regs = [0; 16];
    regs[1] = words[0];
    regs[2] = words[1];
    regs[3] = u32::from(byte);
    regs[4] = words[2];
    regs[5] = DATA;
    regs[15] = base;
    Cpu {
        regs,
        cc: 0,
        next: address_in(next),
    }
}

/// Performs three instructions, at once or one by one, and says whether all are done.
fn is_done<S: Store>(cpu: &mut Cpu, store: &mut S, singly: bool) -> bool {
    if singly {
        step(cpu, store) == Step::Done
            && step(cpu, store) == Step::Done
            && step(cpu, store) == Step::Done
    } else {
        advance(cpu, store, 3) == Halt::Limit
    }
}

/// Whether two processors are alike.
fn are_alike(first: &Cpu, second: &Cpu) -> bool {
    first.regs == second.regs && first.cc == second.cc && first.next == second.next
}

/// A program's address and its length, and whether it is performed at once or one by one.
#[derive(Clone, Copy)]
struct Way {
    at: u32,
    len: u32,
    singly: bool,
}

/// Performs the three instructions where a byte is put into a place, and says whether the processor then is as it was
/// but for these words in registers 1, 2 and 4, and goes on after them.
fn performs<S: Store>(store: &mut S, way: Way, byte: u8, left: [u32; 3]) -> bool {
    store.write(DATA, &[byte]);
    let mut cpu = cpu_at(way.at, way.at, byte, [0; 3]);
    let end = cpu_at(way.at.wrapping_add(way.len), way.at, byte, left);
    is_done(&mut cpu, store, way.singly) && are_alike(&cpu, &end)
}

/// What registers 1, 2 and 4 hold after a change of a program at an address.
fn left_by(change: &Change, at: u32) -> [u32; 3] {
    let [first, second, fourth] = change.left;
    match change.based {
        1 => [first.wrapping_add(at), second, fourth],
        2 => [first, second.wrapping_add(at), fourth],
        _ => [first, second, fourth],
    }
}

/// Whether a program is performed as it was, as it is once it has changed, and as it was again.
fn is_seen<S: Store>(store: &mut S, way: Way, change: &Change) -> bool {
    let left = left_by(change, way.at);
    performs(store, way, change.was, [1, 2, 0])
        && performs(store, way, change.is, left)
        && performs(store, way, change.was, [1, 2, 0])
}

/// Whether each change is seen by a program at an address, which is performed at once and then one by one.
fn are_seen<S: Store>(store: &mut S, at: u32, by: By) -> bool {
    for change in CHANGES.iter() {
        let (program, len) = program(by, change.place);
        store.write(address_in(at), &program);
        for singly in [false, true] {
            if !is_seen(store, Way { at, len, singly }, change) {
                return false;
            }
        }
    }
    true
}

/// Each byte of what comes next is seen, where a page ends after each halfword of the program in turn.
pub(crate) fn each_byte_of_what_comes_next_is_seen<S: Store>(
    store: &mut S,
) -> Result<bool, AllocError> {
    get(store, AREA, AREA + 0x3FFF, 0x4000, OWNER)?;
    for by in [By::Stc, By::Mvc, By::Execute] {
        for at in [
            0x1_0000, 0x1_0FFE, 0x1_0FFC, 0x1_0FFA, 0x1_0FF8, 0x1_0FF6, 0x1_0FF4, 0x1_0FF2,
            0x1_0FF0, 0x1_0FEE, 0x1_0FEC, 0x1_0FEA,
        ] {
            if !are_seen(store, at, by) {
                return Ok(false);
            }
        }
    }
    Ok(true)
}

/// Whether MVC 6(8,15),0(5) over LA 1,1 and LA 2,2 at an address lets them load these words.
fn loads<S: Store>(store: &mut S, at: u32, first: u8, second: u8) -> bool {
    store.write(DATA, &[0x41, 0x10, 0, first, 0x41, 0x20, 0, second]);
    let mut cpu = cpu_at(at, at, 0, [0; 3]);
    let left = [u32::from(first), u32::from(second), 0];
    let end = cpu_at(at.wrapping_add(14), at, 0, left);
    is_done(&mut cpu, store, false) && are_alike(&cpu, &end)
}

/// Both instructions that one move changes are seen, where a page ends after each halfword of them in turn.
pub(crate) fn both_instructions_are_seen_at_once<S: Store>(
    store: &mut S,
) -> Result<bool, AllocError> {
    let program = [
        0xD2, 7, 0xF0, 6, 0x50, 0, 0x41, 0x10, 0, 1, 0x41, 0x20, 0, 2,
    ];
    get(store, AREA, AREA + 0x3FFF, 0x4000, OWNER)?;
    for at in [
        0x1_1000, 0x1_0FFE, 0x1_0FFC, 0x1_0FFA, 0x1_0FF8, 0x1_0FF6, 0x1_0FF4, 0x1_0FF2,
    ] {
        store.write(at, &program);
        if !loads(store, at, 1, 2) || !loads(store, at, 7, 9) || !loads(store, at, 3, 4) {
            return Ok(false);
        }
    }
    Ok(true)
}

/// A program is not performed once its area is freed.
pub(crate) fn a_freed_program_is_not_performed<S: Store>(
    store: &mut S,
) -> Result<bool, AllocError> {
    get(store, OTHER_AREA, OTHER_AREA + 15, 16, OWNER)?;
    // LA 1,1 and a branch back to it
    store.write(OTHER_AREA, &[0x41, 0x10, 0, 1, 0x47, 0xF0, 0xF0, 0]);
    let mut cpu = cpu_at(OTHER_AREA, OTHER_AREA, 0, [0; 3]);
    let begun = advance(&mut cpu, store, 4) == Halt::Limit;
    store.free_area(OTHER_AREA);
    let end = Halt::Interrupt(Interruption::Addressing, OTHER_AREA);
    Ok(begun && advance(&mut cpu, store, 4) == end)
}
