//! Statements as the assembler makes them, byte for byte, and statements that break what is presumed of them: they are
//! run, and the list that they leave is read.

use crate::call::{Due, call_at, is_due, is_written};
use cx_base::{Command, ListedCondition};
use cx_exec::{Cpu, Halt, Interruption, advance};
use cx_region_state::CallFault;
use cx_storage::{FlatStore, Kind, Owner, Store, address_in};
use std::alloc::{AllocError, Global};

/// READQ TS QUEUE(8(5,4)) INTO(X'123') LENGTH(80(13)) RESP(84(13)), with base 3 for the literals.
const READQ: [u8; 64] = [
    0x41, 0x00, 0x30, 0x3C, 0x50, 0x00, 0xD0, 0x00, // LA 0,60(3) ST 0,0(13)
    0x41, 0x05, 0x40, 0x08, 0x50, 0x00, 0xD0, 0x04, // LA 0,8(5,4) ST 0,4(13)
    0x41, 0x00, 0x01, 0x23, 0x50, 0x00, 0xD0, 0x08, // LA 0,X'123' ST 0,8(13)
    0x41, 0x00, 0xD0, 0x50, 0x50, 0x00, 0xD0, 0x0C, // LA 0,80(13) ST 0,12(13)
    0x41, 0x00, 0xD0, 0x54, 0x50, 0x00, 0xD0, 0x10, // LA 0,84(13) ST 0,16(13)
    0x96, 0x80, 0xD0, 0x10, 0x41, 0x10, 0xD0, 0x00, // OI 16(13),X'80' LA 1,0(13)
    0x58, 0xF0, 0x30, 0x38, 0x05, 0xEF, 0x00, 0x00, // L 15,56(3) BALR 14,15
    0x00, 0x00, 0x08, 0x00, 0x0A, 0x04, 0xE0, 0x40, // the entry's address, the block
];

/// FREEMAIN DATA(0(1)); word 1 is reached by base 9.
const FREEMAIN: [u8; 40] = [
    0x41, 0x00, 0x30, 0x24, 0x50, 0x00, 0xD0, 0x00, // LA 0,36(3) ST 0,0(13)
    0x41, 0x00, 0x10, 0x00, 0x50, 0x00, 0x90, 0x00, // LA 0,0(1) ST 0,0(9)
    0x96, 0x80, 0x90, 0x00, 0x41, 0x10, 0xD0, 0x00, // OI 0(9),X'80' LA 1,0(13)
    0x58, 0xF0, 0x30, 0x20, 0x05, 0xEF, 0x00, 0x00, // L 15,32(3) BALR 14,15
    0x00, 0x00, 0x08, 0x00, 0x0C, 0x04, 0x80, 0x00,
];

/// HANDLE CONDITION LENGERR(34(3)) ERROR.
const HANDLE: [u8; 44] = [
    0x41, 0x00, 0x30, 0x24, 0x50, 0x00, 0xD0, 0x00, // LA 0,36(3) ST 0,0(13)
    0x41, 0x00, 0x30, 0x22, 0x50, 0x00, 0xD0, 0x04, // LA 0,34(3) ST 0,4(13)
    0x96, 0x80, 0xD0, 0x04, 0x41, 0x10, 0xD0, 0x00, // OI 4(13),X'80' LA 1,0(13)
    0x58, 0xF0, 0x30, 0x20, 0x05, 0xEF, 0x00, 0x00, // L 15,32(3) BALR 14,15
    0x00, 0x00, 0x08, 0x00, 0x02, 0x04, 0x02, 0x00, 0x16, 0x80, 0x01, 0x00,
];

/// SUSPEND.
const SUSPEND: [u8; 32] = [
    0x41, 0x00, 0x30, 0x1C, 0x50, 0x00, 0xD0, 0x00, // LA 0,28(3) ST 0,0(13)
    0x96, 0x80, 0xD0, 0x00, 0x41, 0x10, 0xD0, 0x00, // OI 0(13),X'80' LA 1,0(13)
    0x58, 0xF0, 0x30, 0x18, 0x05, 0xEF, 0x00, 0x00, // L 15,24(3) BALR 14,15
    0x00, 0x00, 0x08, 0x00, 0x12, 0x08, 0x00, 0x00,
];

/// Where most programs are.
const PROGRAM: u32 = 0x01_0000;

/// Where DFHEISTG is.
const STG: u32 = 0x20_0060;

/// What is done with a task, and what is to be seen then.
#[derive(Clone, Copy)]
enum Act {
    /// Register 3 gets the address of a program, and is where it begins.
    Program(u32, &'static [u8]),
    /// Bytes are written from an address on.
    Write(u32, &'static [u8]),
    /// A register gets a word.
    Set(usize, u32),
    /// At most so many instructions are performed, and end so.
    Run(u32, Halt),
    /// A register has a word.
    Has(usize, u32),
    /// The list at the address in register 1 is a call.
    Calls(Due),
    /// The list can't be read.
    Faults(CallFault),
}

use Act::*;

/// A call without options.
const PLAIN: Due = Due {
    command: Command::Suspend,
    first: 0,
    places: &[],
    resp: None,
    nohandle: false,
    conditions: &[],
};

/// Cases, of which each begins with DFHEISTG's address in register 13 and zeros in all other registers.
#[rattlefmt::skip]
const CASES: &[(&str, &[Act])] = &[
    // the text crosses 020000
    ("arguments by index and without base arrive", &[
        Program(0x01_FFF0, &READQ),
        Set(0, 0x00AB_CDEF),
        Set(4, 0xFF30_0000),
        Set(5, 0x10),
        Run(14, Halt::AtEntry),
        Has(14, 0x5002_0026),
        Has(4, 0xFF30_0000),
        Has(13, STG),
        Calls(Due {
            command: Command::ReadqTs,
            first: 0xE0,
            places: &[0x30_0018, 0x123, STG + 0x50, STG + 0x54],
            resp: Some(STG + 0x54),
            ..PLAIN
        }),
    ]),
    ("one instruction fewer does not arrive", &[
        Program(PROGRAM, &READQ),
        Run(13, Halt::Limit),
        Run(1, Halt::AtEntry),
    ]),
    ("an argument with base 1 and a word by another base arrive", &[
        Program(PROGRAM, &FREEMAIN),
        Set(1, 0x0030_0010),
        Set(9, STG + 4),
        Run(8, Halt::AtEntry),
        Calls(Due { command: Command::Freemain, first: 0x80, places: &[0x30_0010], ..PLAIN }),
    ]),
    ("listed conditions arrive", &[
        Program(PROGRAM, &HANDLE),
        Run(8, Halt::AtEntry),
        Calls(Due {
            command: Command::HandleCondition,
            first: 2,
            places: &[0x01_0022],
            conditions: &[
                ListedCondition { number: 22, label: 0x80 },
                ListedCondition { number: 1, label: 0 },
            ],
            ..PLAIN
        }),
    ]),
    ("a list of one word arrives", &[
        Program(PROGRAM, &SUSPEND),
        Run(6, Halt::AtEntry),
        Calls(PLAIN),
    ]),
    // LA 0,28(0), with the program's address in register 0
    ("base 0 of the block reads no call", &[
        Program(PROGRAM, &SUSPEND),
        Write(PROGRAM, &[0x41, 0x00, 0x00, 0x1C]),
        Set(0, PROGRAM),
        Run(6, Halt::AtEntry),
        Faults(CallFault::Xarg),
    ]),
    // L 15,24(1), with the program's address in register 1 before LA 1
    ("base 1 of the entry's word does not arrive", &[
        Program(PROGRAM, &SUSPEND),
        Write(PROGRAM + 16, &[0x58, 0xF0, 0x10, 0x18]),
        Set(1, PROGRAM),
        Run(100, Halt::Interrupt(Interruption::Addressing, 0)),
    ]),
    // word 0 is where the OI is
    ("an instruction in the list does not arrive", &[
        Program(PROGRAM, &SUSPEND),
        Set(13, PROGRAM + 8),
        Run(100, Halt::Interrupt(Interruption::Operation, PROGRAM + 8)),
    ]),
    ("a list outside storage does not arrive", &[
        Program(PROGRAM, &SUSPEND),
        Set(13, 0x40_0000),
        Run(100, Halt::Interrupt(Interruption::Addressing, PROGRAM + 4)),
    ]),
];

/// The areas' owner.
const OWNER: Owner = Owner {
    slot: 0,
    kind: Kind::Fixed,
};

/// Storage for programs, from 010000 to 0203FF, and for DFHEISTG.
fn areas(alloc: Global) -> Result<FlatStore, AllocError> {
    let mut store = FlatStore::new(alloc);
    store.get_area(PROGRAM, 0x02_03FF, 0x1_0400, OWNER)?;
    store.get_area(STG, STG + 0x5F, 0x60, OWNER)?;
    Ok(store)
}

/// A processor with DFHEISTG's address in register 13.
fn processor() -> Cpu {
    let mut regs = [0; 16];
    regs[13] = STG;
    Cpu {
        regs,
        cc: 0,
        next: 0,
    }
}

/// Whether a program is put to an address, where the processor then begins.
fn begins(cpu: &mut Cpu, store: &mut FlatStore, address: u32, program: &[u8]) -> bool {
    cpu.regs[3] = address;
    cpu.next = address_in(address);
    is_written(store, address, program)
}

fn is_set(cpu: &mut Cpu, register: usize, word: u32) -> bool {
    match cpu.regs.get_mut(register) {
        Some(found) => {
            *found = word;
            true
        }
        None => false,
    }
}

/// A run without what its contract ensures: a test looks at what it answers.
fn run(cpu: &mut Cpu, store: &mut FlatStore, limit: u32) -> Halt {
    advance(cpu, store, limit)
}

/// Whether the list at the address in register 1 is a call.
fn calls(cpu: &Cpu, store: &FlatStore, due: &Due) -> bool {
    match call_at(store, cpu.regs[1]) {
        Ok(call) => is_due(&call, due),
        Err(_) => false,
    }
}

fn fault(cpu: &Cpu, store: &FlatStore) -> Option<CallFault> {
    call_at(store, cpu.regs[1]).err()
}

/// Whether an act goes as it should.
fn goes(cpu: &mut Cpu, store: &mut FlatStore, act: Act) -> bool {
    match act {
        Program(address, program) => begins(cpu, store, address, program),
        Write(address, bytes) => is_written(store, address, bytes),
        Set(register, word) => is_set(cpu, register, word),
        Run(limit, halt) => run(cpu, store, limit) == halt,
        Has(register, word) => cpu.regs.get(register) == Some(&word),
        Calls(due) => calls(cpu, store, &due),
        Faults(due) => fault(cpu, store) == Some(due),
    }
}

/// How many acts go as they should before the first that doesn't.
fn gone(cpu: &mut Cpu, store: &mut FlatStore, acts: &[Act]) -> usize {
    for (number, act) in acts.iter().enumerate() {
        if !goes(cpu, store, *act) {
            return number;
        }
    }
    acts.len()
}

/// How many acts go as they should with a new task before the first that doesn't.
fn done(alloc: Global, acts: &[Act]) -> usize {
    match areas(alloc) {
        Ok(mut store) => gone(&mut processor(), &mut store, acts),
        Err(_) => 0,
    }
}

#[test]
fn statements_arrive(rt: HostRuntime) {
    for &(case, acts) in CASES {
        let done = done(rt.alloc(), acts);
        assert!(rt; done == acts.len(), "{case}: {done}");
    }
}
