//! What is done to a region, with or without EDF.

ghost use Rattle.std.specs.Prelude.{◌≤◌, length};

use crate::seen::task_of;
use cx_ebcdic::{Aid, Name4};
use cx_edf::{Answer, Debugged, KeyAnswer, TurnAnswer};
use cx_edf_display::EdfDisplays;
use cx_region::{Change, Region, Reply};
use cx_storage_pages::PagedStore;
use std::alloc::AllocError;

/// What a key sends.
#[derive(Clone, Copy, PartialEq, Eq)]
pub enum Sent {
    /// Nothing.
    Nothing,
    /// The hostile program's transaction and twelve letters after it.
    Hostile,
    /// The other transaction.
    Other,
    /// The stop conditions ABEND and END.
    AbendEnd,
    /// The stop condition ERROR.
    Error,
    /// What is no list of stop conditions: `ERROR HELLO`.
    Wrong,
}

const HOSTILE: [u8; 14] = [
    0xC1, 0x40, 0xC1, 0xC2, 0xC3, 0xC4, 0xC5, 0xC6, 0xC7, 0xC8, 0xC9, 0xD1, 0xD2, 0xD3,
];

const OTHER: [u8; 1] = [0xC2];

const ABEND_END: [u8; 9] = [0xC1, 0xC2, 0xC5, 0xD5, 0xC4, 0x40, 0xC5, 0xD5, 0xC4];

const ERROR: [u8; 5] = [0xC5, 0xD9, 0xD9, 0xD6, 0xD9];

const WRONG: [u8; 11] = [
    0xC5, 0xD9, 0xD9, 0xD6, 0xD9, 0x40, 0xC8, 0xC5, 0xD3, 0xD3, 0xD6,
];

impl Sent {
    /// The bytes that are sent.
    fn bytes(self) -> &'static [u8]
        ensures { length result.now ≤ 1920 }
    {
        match self {
            Sent::Nothing => &[],
            Sent::Hostile => &HOSTILE,
            Sent::Other => &OTHER,
            Sent::AbendEnd => &ABEND_END,
            Sent::Error => &ERROR,
            Sent::Wrong => &WRONG,
        }
    }
}

/// What is done at a terminal.
#[derive(Clone, Copy, PartialEq, Eq)]
pub enum Act {
    /// A key, and what it sends.
    Key(Aid, Sent),
    /// A turn.
    Turn,
    /// EDF ON.
    On,
    /// EDF OFF.
    Off,
}

/// What was done at a terminal.
#[derive(Clone, Copy)]
pub struct Done {
    /// The terminal.
    pub terminal: Name4,
    /// What was done.
    pub act: Act,
    /// Whether it had a task before.
    pub had_task: bool,
    /// What that was answered.
    pub answer: Answer,
}

// The calls of a region without what their contracts ensure.

fn key(
    debugged: &mut Debugged<PagedStore, EdfDisplays>,
    terminal: Name4,
    aid: Aid,
    sent: Sent,
) -> Result<Answer, AllocError> {
    match debugged.key(terminal, aid, sent.bytes())? {
        KeyAnswer::Region(reply) => Ok(Answer::Region(Reply::Key(reply))),
        KeyAnswer::ToEdf => Ok(Answer::ToEdf),
    }
}

fn turn(
    debugged: &mut Debugged<PagedStore, EdfDisplays>,
    terminal: Name4,
) -> Result<Answer, AllocError> {
    match debugged.turn(terminal)? {
        TurnAnswer::Region(reply) => Ok(Answer::Region(Reply::Turn(reply))),
        TurnAnswer::Held => Ok(Answer::Held),
    }
}

fn edf_on(
    debugged: &mut Debugged<PagedStore, EdfDisplays>,
    terminal: Name4,
) -> Result<Answer, AllocError> {
    Ok(Answer::Edf(debugged.edf_on(terminal)?))
}

fn edf_off(debugged: &mut Debugged<PagedStore, EdfDisplays>, terminal: Name4) -> Answer {
    Answer::Edf(debugged.edf_off(terminal))
}

fn key_alone(
    region: &mut Region<PagedStore>,
    terminal: Name4,
    aid: Aid,
    sent: Sent,
) -> Result<Reply, AllocError> {
    Ok(Reply::Key(region.key(terminal, aid, sent.bytes())?))
}

fn turn_alone(region: &mut Region<PagedStore>, terminal: Name4) -> Result<Reply, AllocError> {
    Ok(Reply::Turn(region.turn(terminal)?))
}

fn abend_alone(region: &mut Region<PagedStore>, terminal: Name4) -> Reply {
    Reply::Alter(region.alter(terminal, Change::Abend))
}

/// What an act is answered under EDF.
fn answer(
    debugged: &mut Debugged<PagedStore, EdfDisplays>,
    terminal: Name4,
    act: Act,
) -> Result<Answer, AllocError> {
    match act {
        Act::Key(aid, sent) => key(debugged, terminal, aid, sent),
        Act::Turn => turn(debugged, terminal),
        Act::On => edf_on(debugged, terminal),
        Act::Off => Ok(edf_off(debugged, terminal)),
    }
}

/// Does an act at a terminal under EDF.
pub fn perform(
    debugged: &mut Debugged<PagedStore, EdfDisplays>,
    terminal: Name4,
    act: Act,
) -> Result<Done, AllocError> {
    let had_task = task_of(debugged, terminal).is_some();
    let answer = answer(debugged, terminal, act)?;
    Ok(Done {
        terminal,
        act,
        had_task,
        answer,
    })
}

/// Does in a region without EDF what was done under EDF. None where EDF answered that itself: then nothing is done. A
/// PF12 that ended a task under EDF is the alteration that ends it.
pub fn perform_alone(
    region: &mut Region<PagedStore>,
    done: &Done,
) -> Result<Option<Reply>, AllocError> {
    let terminal = done.terminal;
    match (done.act, done.answer) {
        (Act::Key(Aid::Pf12, _), Answer::ToEdf) if done.had_task => {
            Ok(Some(abend_alone(region, terminal)))
        }
        (Act::Key(aid, sent), Answer::Region(_)) => {
            Ok(Some(key_alone(region, terminal, aid, sent)?))
        }
        (Act::Turn, Answer::Region(_)) => Ok(Some(turn_alone(region, terminal)?)),
        _ => Ok(None),
    }
}
