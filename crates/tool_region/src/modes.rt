//! The mode of a terminal under EDF, by its table.

use crate::acts::{Act, Done, Sent};
use cx_base::Condition;
use cx_ebcdic::Aid;
use cx_edf::{Answer, EdfReply};
use cx_region::{Reply, TurnReply};

/// The mode of a terminal, without the kind of its stop.
#[derive(Clone, Copy, Debug, PartialEq, Eq)]
pub enum Mode {
    Off,
    Free,
    Stopped,
    Suppressed,
}

/// The stop conditions that are sent here.
#[derive(Clone, Copy)]
struct Words {
    abend: bool,
    end: bool,
    error: bool,
}

/// At first ABEND alone.
const AT_FIRST: Words = Words {
    abend: true,
    end: false,
    error: false,
};

/// The most displays that are kept.
const MOST: usize = 10;

/// What the mode of a terminal is to be, and how many displays are kept of it.
#[derive(Drop)]
pub struct Watch {
    pub mode: Mode,
    pub displays: usize,
    words: Words,
}

/// What PF9 makes of what it sends; None where that is no list of stop conditions.
fn words_of(sent: Sent) -> Option<Words> {
    let (abend, end, error) = match sent {
        Sent::Nothing => (false, false, false),
        Sent::AbendEnd => (true, true, false),
        Sent::Error => (false, false, true),
        _ => return None,
    };
    Some(Words { abend, end, error })
}

/// Whether suppression takes a stop at such a turn's answer.
fn is_taken(words: Words, reply: &TurnReply) -> bool {
    match reply {
        TurnReply::Performed(condition) | TurnReply::TookLabel(condition) => {
            words.error && *condition != Condition::Normal
        }
        TurnReply::TookExit(_) | TurnReply::Abended(_) => words.abend,
        TurnReply::Ended => words.end,
        _ => false,
    }
}

impl Watch {
    /// The watch of a terminal at which EDF is off.
    pub fn new() -> Watch {
        Watch {
            mode: Mode::Off,
            displays: 0,
            words: AT_FIRST,
        }
    }

    /// The terminal is stopped, with one more display.
    fn stop(&mut self) {
        self.mode = Mode::Stopped;
        self.displays = self.displays.saturating_add(1).min(MOST);
    }

    /// EDF is off, and no display is kept.
    fn end(&mut self) {
        self.mode = Mode::Off;
        self.displays = 0;
    }

    /// EDF took a key, while there was a task or not.
    fn key(&mut self, aid: Aid, sent: Sent, has_task: bool) {
        match aid {
            Aid::Enter => self.mode = Mode::Free,
            Aid::Pf3 => self.end(),
            Aid::Pf4 => self.mode = Mode::Suppressed,
            Aid::Pf9 => self.words = words_of(sent).unwrap_or(self.words),
            Aid::Pf12 if has_task => self.stop(),
            _ => {}
        }
    }

    /// The region's turn was answered so.
    fn turn(&mut self, reply: &TurnReply) {
        let stops = match self.mode {
            Mode::Free => !matches!(
                reply,
                TurnReply::Idle | TurnReply::NoSuchTerminal | TurnReply::Waiting
            ),
            Mode::Suppressed => is_taken(self.words, reply),
            Mode::Off | Mode::Stopped => false,
        };
        if stops {
            self.stop();
        }
    }

    /// EDF began or ended a session.
    fn session(&mut self, reply: EdfReply) {
        match reply {
            EdfReply::Started => {
                self.mode = Mode::Free;
                self.words = AT_FIRST;
            }
            EdfReply::Closed => self.end(),
            _ => {}
        }
    }

    /// Whether an event is answered as the mode asks: a key goes to EDF exactly in Stopped, and a turn is held exactly
    /// there with a live task.
    pub fn answers(&self, done: &Done) -> bool {
        let is_stopped = self.mode == Mode::Stopped;
        match done.act {
            Act::Key(_, _) => (done.answer == Answer::ToEdf) == is_stopped,
            Act::Turn => (done.answer == Answer::Held) == (is_stopped && done.had_task),
            Act::On => (done.answer == Answer::Edf(EdfReply::Started)) == (self.mode == Mode::Off),
            Act::Off => (done.answer == Answer::Edf(EdfReply::NotOn)) == (self.mode == Mode::Off),
        }
    }

    /// Takes an event into account: the mode and the number of displays afterwards.
    pub fn note(&mut self, done: &Done) {
        match (done.act, done.answer) {
            (Act::Key(aid, sent), Answer::ToEdf) => self.key(aid, sent, done.had_task),
            (Act::Turn, Answer::Region(Reply::Turn(reply))) => self.turn(&reply),
            (_, Answer::Edf(reply)) => self.session(reply),
            _ => {}
        }
    }
}
