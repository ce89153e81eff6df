//! How often each answer was given.

use cx_ebcdic::Name4;
use cx_edf::Answer;
use cx_exec::Halt;
use cx_region::{Reply, TurnReply};
use std::alloc::{AllocError, Global};

/// An answer in two words (`words`), and how often it was given.
#[derive(Drop)]
pub struct Count {
    pub what: &'static str,
    pub more: &'static str,
    pub times: u64,
}

/// The answers that were given, each once.
#[derive(Drop)]
pub struct Counts {
    pub counts: Vec<Count>,
}

/// The answers that must come: each that a turn of a task can get, and each condition that a command can meet.
pub const DUE: [&str; 17] = [
    "AtCommand",
    "Performed",
    "Entered",
    "Returned",
    "Waiting",
    "Ended",
    "TookLabel",
    "TookExit",
    "Abended",
    "INVREQ",
    "NOSPACE",
    "LENGERR",
    "ITEMERR",
    "PGMIDERR",
    "NOSTG",
    "QIDERR",
    "ENQBUSY",
];

/// The abend codes of the region and their characters.
const CODES: [([u8; 4], &str); 13] = [
    ([0xC1, 0xE2, 0xD9, 0xC1], "ASRA"),
    ([0xC1, 0xC9, 0xC3, 0xC1], "AICA"),
    ([0xE7, 0xC1, 0xD9, 0xC7], "XARG"),
    ([0xE7, 0xC6, 0xE4, 0xD5], "XFUN"),
    ([0xE7, 0xD3, 0xE5, 0xD3], "XLVL"),
    ([0xE7, 0xE2, 0xE3, 0xC7], "XSTG"),
    ([0xE7, 0xC5, 0xC4, 0xC6], "XEDF"),
    ([0xC1, 0xC5, 0xC9, 0xD7], "AEIP"),
    ([0xC1, 0xC5, 0xC9, 0xE5], "AEIV"),
    ([0xC1, 0xC5, 0xC9, 0xE9], "AEIZ"),
    ([0xC1, 0xC5, 0xC9, 0xF0], "AEI0"),
    ([0xC1, 0xC5, 0xE8, 0xC8], "AEYH"),
    ([0x6F, 0x6F, 0x6F, 0x6F], "????"),
];

/// The characters of a code; a program's own codes are one.
fn code_text(code: Name4) -> &'static str {
    let bytes = code.bytes();
    let known = CODES.iter().find(|known| known.0 == bytes);
    known.map_or("its own code", |known| known.1)
}

/// A turn's answer in words.
fn turn_words(reply: &TurnReply) -> (&'static str, &'static str) {
    match reply {
        TurnReply::Idle => ("Idle", ""),
        TurnReply::NoSuchTerminal => ("NoSuchTerminal", ""),
        TurnReply::AtCommand => ("AtCommand", ""),
        TurnReply::Performed(condition) => ("Performed", condition.name()),
        TurnReply::Entered => ("Entered", ""),
        TurnReply::Returned => ("Returned", ""),
        TurnReply::Waiting => ("Waiting", ""),
        TurnReply::TookLabel(condition) => ("TookLabel", condition.name()),
        TurnReply::TookExit(code) => ("TookExit", code_text(*code)),
        TurnReply::Abended(code) => ("Abended", code_text(*code)),
        TurnReply::Ended => ("Ended", ""),
    }
}

/// A region's answer in words.
fn reply_words(reply: &Reply) -> (&'static str, &'static str) {
    match reply {
        Reply::Key(reply) => (reply.name(), ""),
        Reply::Turn(reply) => turn_words(reply),
        Reply::Alter(reply) => (reply.name(), ""),
        _ => ("Defined", ""),
    }
}

/// An answer in two words: its name, and the condition or the abend code that it has; an empty text where it has
/// neither.
pub fn words(answer: &Answer) -> (&'static str, &'static str) {
    match answer {
        Answer::Region(reply) => reply_words(reply),
        Answer::ToEdf => ("ToEdf", ""),
        Answer::Held => ("Held", ""),
        Answer::NotStopped => ("NotStopped", ""),
        Answer::Edf(reply) => (reply.name(), ""),
    }
}

/// How instructions alone ended, in words.
fn halt_words(halt: Halt) -> (&'static str, &'static str) {
    match halt {
        Halt::AtEntry => ("alone:", "the entry"),
        Halt::Limit => ("alone:", "the limit"),
        Halt::Interrupt(interruption, _) => match interruption.code() {
            1 => ("alone:", "interruption 1"),
            3 => ("alone:", "interruption 3"),
            5 => ("alone:", "interruption 5"),
            6 => ("alone:", "interruption 6"),
            7 => ("alone:", "interruption 7"),
            _ => ("alone:", "interruption 9"),
        },
    }
}

impl Counts {
    /// The counts before any answer.
    pub fn new(alloc: Global) -> Counts {
        Counts {
            counts: Vec::new(alloc),
        }
    }

    /// Counts what was answered in these words.
    pub fn add(&mut self, what: &'static str, more: &'static str) -> Result<(), AllocError> {
        for count in self.counts.iter_mut() {
            if count.what == what && count.more == more {
                count.times = count.times.saturating_add(1);
                return Ok(());
            }
        }
        Ok(
            self.counts.push(Count {
                what,
                more,
                times: 1,
            })?,
        )
    }

    /// How often an answer was given of which this is the first or the second word.
    pub fn times(&self, word: &str) -> u64 {
        let mut times = 0u64;
        for count in self.counts.iter() {
            if count.what == word || count.more == word {
                times = times.saturating_add(count.times);
            }
        }
        times
    }

    /// Counts an answer, in its words.
    pub fn answer(&mut self, answer: &Answer) -> Result<(), AllocError> {
        let (what, more) = words(answer);
        self.add(what, more)
    }

    /// Counts how instructions alone ended.
    pub fn halt(&mut self, halt: Halt) -> Result<(), AllocError> {
        let (what, more) = halt_words(halt);
        self.add(what, more)
    }
}
