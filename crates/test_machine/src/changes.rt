//! Programs that change their own instructions, over any store: each byte of the instruction that changes it, of the
//! next ones, of the target of an EX and of data among them, over a page's end at each halfword. The byte is first
//! stored as it is, so that all instructions have been fetched when it is changed.
ghost use Rattle.std.specs.Prelude.{◌<◌, ◌^◌};

use crate::rows::get;
use cx_exec::{Cpu, Halt, Step, advance, step};
use cx_storage::{Kind, Owner, Store, address_in};
use std::alloc::AllocError;

const OWNER: Owner = Owner {
    slot: 1,
    kind: Kind::Fixed,
};

/// The end of a page, inside the program's area of 8,192 bytes.
const PAGE_END: u32 = 0x1_1000;

const AREA: u32 = 0x1_0800;

/// How a program changes one of its bytes: by STC, or by MVC.
#[derive(Clone, Copy)]
pub(crate) enum Means {
    Stc,
    Mvc,
}

/// What a program comes to: the answer of its run, the processor after it, and the program's own bytes.
#[derive(PartialEq, Eq, Drop)]
pub(crate) struct Outcome {
    halt: Halt,
    regs: [u32; 16],
    cc: u8,
    next: u32,
    bytes: [u8; 64],
}

/// AR 2,3; MVC 54(2,15),56(15); EX 0,48(15); LA 1,17(1); STC 1,60(15); BCT 5,0(15); and at 48 SR 4,2, the target of EX.
#[rattlefmt::skip]
const REST: [u8; 64] = [
    0, 0, 0, 0, 0, 0,
    0x1A, 0x23, 0xD2, 0x01, 0xF0, 0x36, 0xF0, 0x38, 0x44, 0x00, 0xF0, 0x30, 0x41, 0x11, 0x00, 0x11,
    0x42, 0x10, 0xF0, 0x3C, 0x46, 0x50, 0xF0, 0x00, 0x00, 0x00, 0, 0, 0, 0, 0, 0,
    0, 0, 0, 0, 0, 0, 0, 0, 0, 0,
    0x1B, 0x42, 0, 0, 0, 0, 1, 2, 3, 4, 5, 6, 7, 8, 9, 10,
];

/// The program that changes the byte at a place: six bytes, in which MVC k(1,15),60(15), or STC 1,k(15) and LR 6,6, and
/// the rest.
fn program_for(means: Means, place: u8) -> [u8; 64] {
    let first = match means {
        Means::Stc => [0x42, 0x10, 0xF0, place, 0x18, 0x66],
        Means::Mvc => [0xD2, 0x00, 0xF0, place, 0xF0, 0x3C],
    };
    let mut program = REST;
    for k in 0..6 {
        program[k] = first[k];
    }
    let held = program[place as usize % 64];
    program[60] = held;
    program
}

/// What the program comes to that begins so many bytes before the end of a page.
pub(crate) fn outcome_of<S: Store>(
    store: &mut S,
    means: Means,
    place: u8,
    before: u32,
) -> Result<Outcome, AllocError> {
    let program = program_for(means, place);
    let at = address_in(PAGE_END.wrapping_sub(before));
    store.free_slot(1);
    get(store, AREA, AREA + 8191, 8192, OWNER)?;
    store.write(at, &program);
    let mut regs = [0; 16];
    regs[1] = u32::from(program[60]);
    regs[3] = 3;
    regs[5] = 4;
    regs[15] = at;
    let mut cpu = Cpu {
        regs,
        cc: 0,
        next: at,
    };
    let halt = advance(&mut cpu, store, 40);
    let mut bytes = [0; 64];
    store.read(at, &mut bytes);
    Ok(Outcome {
        halt,
        regs: cpu.regs,
        cc: cpu.cc,
        next: cpu.next,
        bytes,
    })
}

/// Whether all programs of one kind come to the same over two stores.
pub(crate) fn agree_by<S: Store, T: Store>(
    first: &mut S,
    second: &mut T,
    means: Means,
) -> Result<bool, AllocError> {
    for before in [2, 4, 6, 8, 10, 12, 14, 16, 18, 20, 22, 48, 50] {
        for place in 0..64 {
            let one = outcome_of(first, means, place, before)?;
            if one != outcome_of(second, means, place, before)? {
                return Ok(false);
            }
        }
    }
    Ok(true)
}

/// Whether all programs come to the same over two stores.
pub(crate) fn agree<S: Store, T: Store>(first: &mut S, second: &mut T) -> Result<bool, AllocError> {
    Ok(agree_by(first, second, Means::Stc)? && agree_by(first, second, Means::Mvc)?)
}

/// Whether a program whose next instruction, AR 2,3, becomes SR 2,3 by STC in its second turn adds 3 in the first and
/// takes it away in the second.
pub(crate) fn a_fetched_instruction_is_changed<S: Store>(
    store: &mut S,
) -> Result<bool, AllocError> {
    // STC 1,4(15); AR 2,3; LA 1,1(1); BCT 5,0(15)
    let program = [
        0x42, 0x10, 0xF0, 0x04, 0x1A, 0x23, 0x41, 0x11, 0x00, 0x01, 0x46, 0x50, 0xF0, 0x00,
    ];
    store.free_slot(1);
    get(store, AREA, AREA + 8191, 8192, OWNER)?;
    store.write(AREA, &program);
    let mut regs = [0; 16];
    regs[1] = 0x1A;
    regs[2] = 100;
    regs[3] = 3;
    regs[5] = 4;
    regs[15] = AREA;
    let mut cpu = Cpu {
        regs,
        cc: 0,
        next: AREA,
    };
    let first = advance(&mut cpu, store, 4) == Halt::Limit && cpu.regs[2] == 103;
    let second = advance(&mut cpu, store, 4) == Halt::Limit && cpu.regs[2] == 100;
    Ok(first && second)
}

/// Whether a processor ends the instructions of a limit with this word in register 1.
fn comes_to<S: Store>(cpu: &mut Cpu, store: &mut S, limit: u32, word: u32) -> bool {
    advance(cpu, store, limit) == Halt::Limit && cpu.regs[1] == word
}

/// The third instruction changes the fourth, which is performed as it is by then, and again when it was changed back.
pub(crate) fn a_changed_instruction_is_performed<S: Store>(
    store: &mut S,
) -> Result<bool, AllocError> {
    // AR 1,1; LR 3,5; MVI 11(15),X'12'; AR 1,1, which becomes AR 1,2; BCT 5,0(15)
    let program = [
        0x1A, 0x11, 0x18, 0x35, 0x92, 0x12, 0xF0, 0x09, 0x1A, 0x11, 0x46, 0x50, 0xF0, 0x00,
    ];
    let at = PAGE_END - 32;
    get(store, AREA, AREA + 8191, 8192, OWNER)?;
    store.write(at, &program);
    let mut regs = [0; 16];
    regs[1] = 1;
    regs[2] = 5;
    regs[5] = 100;
    regs[15] = at;
    let mut cpu = Cpu {
        regs,
        cc: 0,
        next: at,
    };
    let first = comes_to(&mut cpu, store, 4, 7) && cpu.next == at + 10;
    let second = step(&mut cpu, store) == Step::Done && cpu.next == at;
    store.write(at + 8, &[0x1B, 0x11]);
    Ok(first && second && comes_to(&mut cpu, store, 4, 9))
}
