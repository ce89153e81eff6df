//! Levels and their exits by rows worked by hand: calls of a stack, and what each is answered.
use crate::handles::{Due, choice_of};
use cx_base::Condition;
use cx_ebcdic::Name8;
use cx_program::{ConditionCode, HandleTable, Level, LevelStack, ProgramFault};

/// A call, and what it is answered. A level is told by the address of its DFHEISTG.
#[derive(Clone, Copy)]
enum Call {
    /// A level is entered, or, where the stack is full, comes back.
    Enter(u32, bool),
    /// The current level is left; None where it's the only one.
    Leave(Option<u32>),
    /// The level at a place, from the bottom.
    At(usize, Option<u32>),
    /// How many levels there are.
    Count(usize),
    /// The current level gets a label for PGMIDERR.
    SetLabel(u32),
    /// The current level meets PGMIDERR.
    Meets(Due),
    /// The current level gets an exit.
    SetExit(u32),
    /// The current level's exit becomes inactive.
    ExitOff,
    /// The current level's exit becomes active.
    ExitOn,
    /// The place of the nearest level with an active exit.
    ExitAt(Option<usize>),
}

use Call::*;

/// The address of the first level's DFHEISTG.
const FIRST: u32 = 0x20_0060;

/// Calls of a stack, which has one level at first.
#[rattlefmt::skip]
const CALLS: &[(&str, &[Call])] = &[
    ("a called level has its own handles", &[
        SetLabel(0x01_0200),
        Enter(0x20_00B0, true),
        Meets(Due::Abend("AEI0")),
        At(0, Some(FIRST)),
        Leave(Some(0x20_00B0)),
        Meets(Due::Label(0x01_0200)),
        Leave(None),
        Count(1),
    ]),
    ("a seventeenth level comes back", &[
        Enter(1, true), Enter(2, true), Enter(3, true), Enter(4, true), Enter(5, true),
        Enter(6, true), Enter(7, true), Enter(8, true), Enter(9, true), Enter(10, true),
        Enter(11, true), Enter(12, true), Enter(13, true), Enter(14, true), Enter(15, true),
        Enter(16, false),
        Count(16),
        At(15, Some(15)),
        At(16, None),
    ]),
    ("exits of callers are found from below", &[
        ExitAt(None),
        SetExit(0x01_0100),
        Enter(1, true),
        Enter(2, true),
        ExitAt(Some(0)),
        SetExit(0x01_0200),
        ExitAt(Some(2)),
        ExitOff,
        ExitAt(Some(0)),
        ExitOn,
        ExitAt(Some(2)),
        Leave(Some(2)),
        Leave(Some(1)),
        ExitOff,
        ExitAt(None),
    ]),
];

/// A program's level whose DFHEISTG is at an address.
fn level(stg: u32) -> Level {
    Level {
        program: Name8::from_bytes(*b"\xD7\xC7\xD4\x40\x40\x40\x40\x40"),
        stg,
        stg_len: 80,
        calen: 8,
        regs: [0; 16],
        cc: ConditionCode::new(2),
        handles: HandleTable::new(),
    }
}

// The calls without what their contracts ensure: a test looks at what they answer.

/// Whether a level is entered; None where another one comes back, or not since there are too many.
fn enter(stack: &mut LevelStack, stg: u32) -> Option<bool> {
    match stack.enter(level(stg)) {
        Ok(()) => Some(true),
        Err((back, ProgramFault::TooDeep)) if back.stg == stg => Some(false),
        Err(_) => None,
    }
}

fn leave(stack: &mut LevelStack) -> Option<u32> {
    stack.leave().map(|level| level.stg)
}

fn stg_of(stack: &LevelStack, place: usize) -> Option<u32> {
    Some(stack.get(place)?.stg)
}

fn set_label(stack: &mut LevelStack, label: u32) -> bool {
    stack.current_mut().handles.set(Condition::Pgmiderr, label);
    true
}

/// Whether this is due where the current level meets PGMIDERR.
fn meets(stack: &LevelStack, due: Due) -> bool {
    Some(stack.current().handles.choose(Condition::Pgmiderr)) == choice_of(due)
}

fn set_exit(stack: &mut LevelStack, label: u32) -> bool {
    stack.current_mut().handles.set_exit(label);
    true
}

fn exit_off(stack: &mut LevelStack) -> bool {
    stack.current_mut().handles.exit_off();
    true
}

fn exit_on(stack: &mut LevelStack) -> bool {
    stack.current_mut().handles.exit_on();
    true
}

fn exit_level(stack: &LevelStack) -> Option<usize> {
    stack.find_exit()
}

/// Whether a call is answered as it should be.
fn is_answered(stack: &mut LevelStack, call: Call) -> bool {
    match call {
        Enter(stg, is_entered) => enter(stack, stg) == Some(is_entered),
        Leave(stg) => leave(stack) == stg,
        At(place, stg) => stg_of(stack, place) == stg,
        Count(count) => stack.len() == count,
        SetLabel(label) => set_label(stack, label),
        Meets(due) => meets(stack, due),
        SetExit(label) => set_exit(stack, label),
        ExitOff => exit_off(stack),
        ExitOn => exit_on(stack),
        ExitAt(place) => exit_level(stack) == place,
    }
}

/// How many calls are answered as they should be before the first that isn't.
fn answered(stack: &mut LevelStack, calls: &[Call]) -> usize {
    for (number, call) in calls.iter().enumerate() {
        if !is_answered(stack, *call) {
            return number;
        }
    }
    calls.len()
}

/// The first case that has a call which isn't answered as it should be; empty where none has.
fn failing() -> &'static str {
    for &(case, calls) in CALLS {
        let mut stack = LevelStack::new(level(FIRST));
        if answered(&mut stack, calls) != calls.len() {
            return case;
        }
    }
    ""
}

#[test]
fn calls_of_levels_are_answered(rt: HostRuntime) {
    let failing = failing();
    assert!(rt; failing.is_empty(), "{failing}");
}

#[test]
fn condition_codes_are_numbers(rt: HostRuntime) {
    assert!(rt; level(0).cc.number() == 2);
    assert!(rt; Level::default().cc.number() == 0);
}
