//! Programs made of calls.

use crate::code::{
    A, AREA, B, BYTES, Code, EIBTRMID, FOUR, HALFWORDS, MOST_OF_AN_AREA, MOST_OF_AN_ITEM, NAMES,
    PLACES, POINTER, RESP, RETURN, START, STG_LEN, T002, ZERO,
};
use crate::draws::Draws;
use crate::texts::{Subject, TURNS, changed};
use cx_base::{ArgumentKind, Command, CommonOption, Condition, has_bit};
use std::alloc::{AllocError, Global};

/// The turns in which a program that fills task storage and the queues comes to their ends.
const FILLING_TURNS: u32 = 1000;

/// GETMAIN SET LENGTH NOSUSPEND NOHANDLE, and WRITEQ QUEUE FROM LENGTH NOSUSPEND NOHANDLE.
const GETMAIN: [u8; 4] = [0x0C, 0x02, 0xD0, 0x80];

const WRITEQ: [u8; 4] = [0x0A, 0x02, 0xE4, 0x80];

/// HANDLE CONDITION of ITEMERR with a label; READQ QUEUE LENGTH ITEM SET, and the same with NOHANDLE.
const HANDLE_ITEMERR: [u8; 6] = [0x02, 0x04, 0x01, 0x00, 0x1A, 0x80];

const READQ: [u8; 4] = [0x0A, 0x04, 0xB4, 0x00];

const READQ_NOHANDLE: [u8; 4] = [0x0A, 0x04, 0xB4, 0x80];

/// ENQ RESOURCE LENGTH, SEND TEXT FROM LENGTH, and LINK PROGRAM.
const ENQ: [u8; 4] = [0x12, 0x04, 0xC0, 0x00];

const SEND: [u8; 4] = [0x18, 0x06, 0xC0, 0x00];

const LINK: [u8; 4] = [0x0E, 0x02, 0x80, 0x00];

/// Option byte 2 with nothing, NOHANDLE, RESP, and both.
const SECOND_BYTES: [u8; 4] = [0x00, 0x80, 0x40, 0xC0];

/// The commands of every second call: those that wait, or that meet a condition which bytes of any values don't reach.
const OFTEN: [Command; 9] = [
    Command::WriteqTs,
    Command::ReadqTs,
    Command::WriteqTs,
    Command::ReadqTs,
    Command::Enq,
    Command::Enq,
    Command::Getmain,
    Command::Link,
    Command::Receive,
];

/// Where an argument of a kind may be.
fn fields_of(kind: ArgumentKind) -> &'static [u16] {
    match kind {
        ArgumentKind::Name4 | ArgumentKind::Name8 => &NAMES,
        ArgumentKind::Halfword
        | ArgumentKind::HalfwordBothWays
        | ArgumentKind::HalfwordBothWaysWithoutSet
        | ArgumentKind::HalfwordOut
        | ArgumentKind::HalfwordOutWithoutRewrite => &HALFWORDS,
        ArgumentKind::Pointer => &[POINTER],
        ArgumentKind::BytesOrAddress => &[T002, BYTES],
        _ => &PLACES,
    }
}

/// A set of options of a command, mostly a legal one.
fn option_byte(draws: &mut Draws, command: Command) -> u8 {
    let mut known = 0;
    let mut required = 0;
    for option in command.options() {
        known |= option.bit;
        if option.required {
            required |= option.bit;
        }
    }
    for _k in 0..16 {
        let byte = draws.byte() & known | required;
        if command.is_legal(byte, 0) {
            return byte;
        }
    }
    required
}

/// Appends the arguments of the options that an option byte has, each at a drawn place.
fn push_arguments(
    code: &mut Code,
    draws: &mut Draws,
    command: Command,
    first: u8,
) -> Result<(), AllocError> {
    for option in command.options() {
        if has_bit(first, option.bit) && option.kind.takes_argument() {
            let field = draws.pick(fields_of(option.kind)).unwrap_or(BYTES);
            code.argument(field)?;
        }
    }
    Ok(())
}

/// Appends HANDLE or IGNORE CONDITION of one condition, up to its label.
fn push_listing(
    code: &mut Code,
    draws: &mut Draws,
    command: Command,
    second: u8,
) -> Result<(), AllocError> {
    let [high, low] = command.function().to_be_bytes();
    let condition = draws.pick(Condition::handled()).unwrap_or(Condition::Error);
    let has_label = command == Command::HandleCondition && draws.is_one_in(2);
    let label = if has_label { 0x80 } else { 0 };
    code.block(&[high, low, 1, second, condition.number(), label])?;
    if has_label {
        let field = draws.pick(&[START, RETURN]).unwrap_or(RETURN);
        code.argument(field)?;
    }
    Ok(())
}

/// Appends a call of a command with drawn options and arguments.
fn push_call(code: &mut Code, draws: &mut Draws, command: Command) -> Result<(), AllocError> {
    let second = draws.pick(&SECOND_BYTES).unwrap_or(0);
    if command.lists_conditions() {
        push_listing(code, draws, command, second)?;
    } else {
        let [high, low] = command.function().to_be_bytes();
        let first = option_byte(draws, command);
        code.block(&[high, low, first, second])?;
        push_arguments(code, draws, command, first)?;
    }
    if CommonOption::Resp.is_in(second) {
        code.argument(RESP)?;
    }
    code.enter()
}

/// A program of one to sixteen drawn calls.
fn drawn(alloc: Global, draws: &mut Draws) -> Result<Subject, AllocError> {
    let mut code = Code::new(alloc)?;
    for _k in 0..=draws.below(16) {
        let commands: &[Command] = if draws.is_one_in(2) {
            &OFTEN
        } else {
            &Command::ALL
        };
        let command = draws.pick(commands).unwrap_or(Command::Suspend);
        push_call(&mut code, draws, command)?;
    }
    Ok(Subject {
        text: code.repeated()?,
        stg_len: STG_LEN,
        turns: TURNS,
    })
}

/// A program that gets areas of 65,520 bytes, and writes items of 32,767, until there is place for neither.
fn filling(alloc: Global) -> Result<Subject, AllocError> {
    let mut code = Code::new(alloc)?;
    code.call(GETMAIN, &[POINTER, MOST_OF_AN_AREA])?;
    code.call(WRITEQ, &[A, AREA, MOST_OF_AN_ITEM])?;
    Ok(Subject {
        text: code.repeated()?,
        stg_len: STG_LEN,
        turns: FILLING_TURNS,
    })
}

/// A program that asks for an item that its queue doesn't have, without HANDLE and with it.
fn asking(alloc: Global) -> Result<Subject, AllocError> {
    let mut code = Code::new(alloc)?;
    code.block(&HANDLE_ITEMERR)?;
    code.argument(RETURN)?;
    code.enter()?;
    code.call(WRITEQ, &[A, T002, FOUR])?;
    code.call(READQ_NOHANDLE, &[A, BYTES, ZERO, POINTER])?;
    code.call(READQ, &[A, BYTES, ZERO, POINTER])?;
    Ok(Subject {
        text: code.repeated()?,
        stg_len: STG_LEN,
        turns: TURNS,
    })
}

/// The program of a number, made of calls: of 125 numbers one that fills and one that asks; of the others a third has
/// one to three bytes changed.
pub fn of_calls(alloc: Global, draws: &mut Draws, number: u32) -> Result<Subject, AllocError> {
    match number % 125 {
        3 => return filling(alloc),
        4 => return asking(alloc),
        _ => {}
    }
    let program = drawn(alloc, draws)?;
    if draws.is_one_in(3) {
        changed(alloc, draws, &program)
    } else {
        Ok(program)
    }
}

/// The program B: it enqueues the name of its terminal, sends four letters, and links to itself.
pub fn linking(alloc: Global) -> Result<Vec<u8>, AllocError> {
    let mut code = Code::new(alloc)?;
    code.call(ENQ, &[EIBTRMID, FOUR])?;
    code.call(SEND, &[T002, FOUR])?;
    code.call(LINK, &[B])?;
    code.repeated()
}
