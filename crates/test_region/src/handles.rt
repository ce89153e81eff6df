//! Handles by rows worked by hand: calls of a table, and what each is answered.
ghost use Rattle.std.specs.Prelude.{◌≢◌};

use cx_base::Condition;
use cx_ebcdic::Name4;
use cx_program::{Choice, HandleTable, ProgramFault};

/// What happens where a command meets a condition.
#[derive(Clone, Copy)]
pub(crate) enum Due {
    Label(u32),
    GoOn,
    Wait,
    Abend(&'static str),
}

use Due::*;

/// A call, and what it is answered.
#[derive(Clone, Copy)]
enum Call {
    /// HANDLE CONDITION with a label.
    Set(Condition, u32),
    /// HANDLE CONDITION without a label.
    PutBack(Condition),
    /// IGNORE CONDITION.
    Ignore(Condition),
    /// A command meets a condition.
    Meets(Condition, Due),
    /// PUSH, and its fault.
    Push(Option<ProgramFault>),
    /// POP, and its fault.
    Pop(Option<ProgramFault>),
    /// HANDLE ABEND with a label.
    SetExit(u32),
    /// HANDLE ABEND RESET.
    ExitOn,
    /// The exit that is active.
    Exit(Option<u32>),
    /// How many tables are pushed.
    Pushed(usize),
}

use Call::*;

/// Calls of a table, which has no entry at first.
#[rattlefmt::skip]
const CALLS: &[(&str, &[Call])] = &[
    ("ERROR takes what has no entry", &[
        Set(Condition::Error, 0x01_0100),
        Set(Condition::Pgmiderr, 0x01_0200),
        Meets(Condition::Pgmiderr, Label(0x01_0200)),
        PutBack(Condition::Pgmiderr),
        Meets(Condition::Pgmiderr, Label(0x01_0100)),
        Meets(Condition::Nospace, Wait),
        Ignore(Condition::Pgmiderr),
        Meets(Condition::Pgmiderr, GoOn),
        Ignore(Condition::Error),
        Meets(Condition::Qiderr, GoOn),
        Meets(Condition::Enqbusy, Wait),
        Set(Condition::Enqbusy, 0x01_0300),
        Meets(Condition::Enqbusy, Label(0x01_0300)),
    ]),
    ("conditions abend without entries", &[
        Meets(Condition::Invreq, Abend("AEIP")),
        Meets(Condition::Lengerr, Abend("AEIV")),
        Meets(Condition::Itemerr, Abend("AEIZ")),
        Meets(Condition::Pgmiderr, Abend("AEI0")),
        Meets(Condition::Qiderr, Abend("AEYH")),
    ]),
    ("PUSH hides and POP brings back", &[
        Set(Condition::Error, 0x01_0100),
        SetExit(0x01_0400),
        Push(None),
        Meets(Condition::Pgmiderr, Abend("AEI0")),
        ExitOn,
        Exit(None),
        Pushed(1),
        Pop(None),
        Meets(Condition::Pgmiderr, Label(0x01_0100)),
        Exit(Some(0x01_0400)),
    ]),
    ("sixteen tables are pushed", &[
        Pop(Some(ProgramFault::NothingPushed)),
        Push(None), Push(None), Push(None), Push(None), Push(None), Push(None), Push(None), Push(None),
        Push(None), Push(None), Push(None), Push(None), Push(None), Push(None), Push(None), Push(None),
        Push(Some(ProgramFault::TooDeep)),
        Pushed(16),
    ]),
];

/// What is due as an answer; None where the code of an abend is no name.
pub(crate) fn choice_of(due: Due) -> Option<Choice> {
    match due {
        Label(label) => Some(Choice::Label(label)),
        GoOn => Some(Choice::GoOn),
        Wait => Some(Choice::Wait),
        Abend(code) => Some(Choice::Abend(Name4::from_text(code)?)),
    }
}

// The calls without what their contracts ensure: a test looks at what they answer.

fn set(table: &mut HandleTable, condition: Condition, label: u32)
    requires { condition ≢ Condition.Normal }
{
    table.set(condition, label);
}

fn put_back(table: &mut HandleTable, condition: Condition)
    requires { condition ≢ Condition.Normal }
{
    table.default(condition);
}

fn ignore(table: &mut HandleTable, condition: Condition)
    requires { condition ≢ Condition.Normal }
{
    table.ignore(condition);
}

fn choose(table: &HandleTable, condition: Condition) -> Choice
    requires exceptional { condition ≢ Condition.Normal }
    requires not_error { condition ≢ Condition.Error }
{
    table.choose(condition)
}

/// Whether this is due where a command meets a condition.
fn meets(table: &HandleTable, condition: Condition, due: Due) -> bool {
    match condition {
        Condition::Normal | Condition::Error => false,
        _ => Some(choose(table, condition)) == choice_of(due),
    }
}

/// Performs HANDLE or IGNORE CONDITION, and says whether the condition may be named.
fn is_handled(table: &mut HandleTable, call: Call) -> bool {
    match call {
        Set(Condition::Normal, _) | PutBack(Condition::Normal) | Ignore(Condition::Normal) => {
            return false;
        }
        Set(condition, label) => set(table, condition, label),
        PutBack(condition) => put_back(table, condition),
        Ignore(condition) => ignore(table, condition),
        _ => return false,
    }
    true
}

/// Performs HANDLE ABEND.
fn set_exit(table: &mut HandleTable, label: Option<u32>) -> bool {
    match label {
        Some(label) => table.set_exit(label),
        None => table.exit_on(),
    }
    true
}

fn push(table: &mut HandleTable) -> Option<ProgramFault> {
    table.push().err()
}

fn pop(table: &mut HandleTable) -> Option<ProgramFault> {
    table.pop().err()
}

/// Whether a call is answered as it should be.
fn is_answered(table: &mut HandleTable, call: Call) -> bool {
    match call {
        Set(..) | PutBack(_) | Ignore(_) => is_handled(table, call),
        Meets(condition, due) => meets(table, condition, due),
        Push(fault) => push(table) == fault,
        Pop(fault) => pop(table) == fault,
        SetExit(label) => set_exit(table, Some(label)),
        ExitOn => set_exit(table, None),
        Exit(label) => table.exit() == label,
        Pushed(count) => table.pushed() == count,
    }
}

/// How many calls are answered as they should be before the first that isn't.
fn answered(table: &mut HandleTable, calls: &[Call]) -> usize {
    for (number, call) in calls.iter().enumerate() {
        if !is_answered(table, *call) {
            return number;
        }
    }
    calls.len()
}

/// The first case that has a call which isn't answered as it should be; empty where none has.
fn failing() -> &'static str {
    for &(case, calls) in CALLS {
        let mut table = HandleTable::new();
        if answered(&mut table, calls) != calls.len() {
            return case;
        }
    }
    ""
}

#[test]
fn calls_of_handles_are_answered(rt: HostRuntime) {
    let failing = failing();
    assert!(rt; failing.is_empty(), "{failing}");
}
