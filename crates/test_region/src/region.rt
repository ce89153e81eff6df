//! A region's calls, each by itself, with what no line of a script can say: bytes past the last address. What a region
//! answers and what is seen of it is tested by scripts.

use cx_code::{Bytes, Image, Offsets};
use cx_ebcdic::{Aid, Name4, Name8};
use cx_load::{CheckedImage, check};
use cx_region::{AlterReply, Change, Event, KeyReply, Region, Reply, TurnReply, command_name};
use cx_storage::FlatStore;
use std::alloc::{AllocError, Global};

/// A program that builds an argument list with one word and gives RETURN.
const RETURN: [u8; 32] = [
    0x41, 0x00, 0xF0, 0x1C, 0x50, 0x00, 0xF0, 0x18, 0x96, 0x80, 0xF0, 0x18, 0x41, 0x10, 0xF0, 0x18,
    0x41, 0xE0, 0x08, 0x00, 0x05, 0xEE, 0x00, 0x00, 0x00, 0x00, 0x00, 0x00, 0x0E, 0x08, 0x00, 0x00,
];

/// The terminal and the transaction, T001.
const T001: [u8; 4] = [0xE3, 0xF0, 0xF0, 0xF1];

/// The program, PGM.
const PGM: [u8; 8] = [0xD7, 0xC7, 0xD4, 0x40, 0x40, 0x40, 0x40, 0x40];

/// A region without programs, transactions and terminals. An error means out of memory.
fn empty(alloc: Global) -> Result<Region<FlatStore>, AllocError> {
    Region::new(alloc, FlatStore::new(alloc))
}

/// The checked image of the program; None where it has a fault. An error means out of memory.
fn checked(alloc: Global) -> Result<Option<CheckedImage>, AllocError> {
    let image = Image {
        text: Bytes::from_vec(RETURN.to_vec(alloc)?),
        entry: 0,
        relocs: Offsets::from_vec(Vec::new(alloc)),
        stg_len: 80,
    };
    Ok(check(image).ok())
}

// The calls without what their contracts ensure: a test looks at what they answer.

fn define_program(region: &mut Region<FlatStore>, image: &CheckedImage) -> bool {
    region.define_program(Name8::from_bytes(PGM), image).is_ok()
}

fn define_transaction(region: &mut Region<FlatStore>) -> bool {
    let program = Name8::from_bytes(PGM);
    region.define_transaction(Name4::from_bytes(T001), program) == Ok(())
}

fn define_terminal(region: &mut Region<FlatStore>) -> bool {
    region.define_terminal(Name4::from_bytes(T001)) == Ok(())
}

fn is_attached(region: &mut Region<FlatStore>) -> bool {
    region.key(Name4::from_bytes(T001), Aid::Enter, &T001) == Ok(KeyReply::Attached)
}

fn is_at_command(region: &mut Region<FlatStore>) -> bool {
    region.turn(Name4::from_bytes(T001)) == Ok(TurnReply::AtCommand)
}

fn has_no_byte(region: &mut Region<FlatStore>, address: u32) -> bool {
    let change = Change::Byte(address, 0);
    region.alter(Name4::from_bytes(T001), change) == AlterReply::NoByte
}

fn is_absent(region: &Region<FlatStore>, address: u32) -> bool {
    region.byte(address).is_none()
}

/// Whether the program is defined.
fn is_defined(alloc: Global, region: &mut Region<FlatStore>) -> bool {
    match checked(alloc) {
        Ok(Some(image)) => define_program(region, &image),
        _ => false,
    }
}

/// Whether the program, its transaction and the terminal are defined, and the task comes to its command.
fn begins(alloc: Global, region: &mut Region<FlatStore>) -> bool {
    is_defined(alloc, region)
        && define_transaction(region)
        && define_terminal(region)
        && is_attached(region)
        && is_at_command(region)
}

/// Whether there is no byte past the last address, neither to be altered nor to be seen.
fn ends_at_the_last_address(region: &mut Region<FlatStore>) -> bool {
    has_no_byte(region, 0x0100_0000)
        && has_no_byte(region, 0xFFFF_FFFF)
        && is_absent(region, 0xFFFF_FFFF)
}

#[test]
fn no_byte_is_past_the_last_address(rt: HostRuntime) {
    match empty(rt.alloc()) {
        Ok(mut region) => {
            assert!(rt; begins(rt.alloc(), &mut region) && ends_at_the_last_address(&mut region));
        }
        Err(_) => assert!(rt; false),
    }
}

/// The replies to a terminal's definition, a clock and a turn, as one run.
fn replies(alloc: Global) -> Option<Vec<Reply>> {
    let events = [
        Event::Terminal(Name4::from_bytes(T001)),
        Event::Clock(123_456, 98_365),
        Event::Turn(Name4::from_bytes(T001)),
    ];
    empty(alloc).ok()?.run(&events).ok()
}

#[test]
fn a_run_answers_each_event(rt: HostRuntime) {
    let expected = [
        Reply::Terminal(Ok(())),
        Reply::Clock,
        Reply::Turn(TurnReply::Idle),
    ];
    match replies(rt.alloc()) {
        Some(replies) => assert!(rt; replies.as_slice() == expected.as_slice()),
        None => assert!(rt; false),
    }
}

#[test]
fn commands_have_names(rt: HostRuntime) {
    assert!(rt; command_name(0x0E08) == Some("RETURN"));
    assert!(rt; command_name(0x0E09).is_none());
}
