//! Where a task stops under suppression.
ghost use Rattle.std.specs.Prelude.{◌≡◌, ◌==◌, false, true, map};
ghost use Rattle.std.specs.List.{find, list_all, zip};
ghost use Rattle.std.specs.Str.{bytes_eq};
ghost use Rattle.cx_ebcdic.specs.Characters.{shown_as};
ghost use Rattle.cx_base.specs.Conditions.{entry_of};
ghost use Rattle.cx_edf.specs.Stops.{is_shown_as, names, no_stops, stop_word_name, stop_word_of, stops_named, takes, with_part, with_stop};

use crate::stops::{Ending, StopPoint};
use cx_base::{CONDITIONS, Condition, shown_byte};

/// A stop condition: what a task stops at under suppression.
#[derive(Clone, Copy)]
pub enum StopWord {
    /// ABEND: an abend, whether an exit takes it or the task ends by it.
    Abend,
    /// END: the task's end by RETURN.
    End,
    /// A condition that a command meets, by its name; ERROR stands for all but NORMAL.
    Met(Condition),
}

impl StopWord {
    /// The word as an operator enters it, as `PGMIDERR`.
    pub fn name(self) -> &'static str
        ensures { result.now ≡ stop_word_name self }
    {
        match self {
            StopWord::Abend => "ABEND",
            StopWord::End => "END",
            StopWord::Met(condition) => condition.name(),
        }
    }
}

/// The stop conditions of a session: each is on or off.
#[derive(Clone, Copy)]
pub struct Stops {
    /// ABEND is on.
    pub abend: bool,
    /// END is on.
    pub end: bool,
    /// The conditions, each at its place (`Condition::place`).
    pub met: [bool; CONDITIONS],
}

impl Stops {
    /// None.
    const NONE: Stops = Stops {
        abend: false,
        end: false,
        met: [false; CONDITIONS],
    };

    /// Those that a session begins with: ABEND alone.
    pub(crate) fn at_first() -> Stops
        ensures { result ≡ record no_stops { abend = true } }
    {
        Stops {
            abend: true,
            ..Stops::NONE
        }
    }

    /// These and one more.
    fn with(self, word: StopWord) -> Stops
        ensures { result ≡ with_stop self word }
    {
        let mut stops = self;
        match word {
            StopWord::Abend => stops.abend = true,
            StopWord::End => stops.end = true,
            StopWord::Met(condition) => stops.met[condition.place()] = true,
        }
        stops
    }

    /// Whether this very condition is on. ERROR counts for itself alone here.
    pub fn names(self, condition: Condition) -> bool
        ensures { result ≡ names self condition }
    {
        self.met[condition.place()]
    }

    /// Whether a task stops there under suppression: after a condition that is on, or after any but NORMAL where ERROR
    /// is on; where an exit took an abend, or the task ended by one, where ABEND is on; where it ended otherwise, where
    /// END is on. Never before a command.
    #[tactic(auto, unfolding(crate::specs::Stops::takes))]
    pub fn takes(self, kind: &StopPoint) -> bool
        ensures { result ≡ takes self kind.now }
    {
        match kind {
            StopPoint::Before => false,
            StopPoint::After(Condition::Normal) => false,
            StopPoint::After(condition) => self.names(Condition::Error) || self.names(*condition),
            StopPoint::Exit(_) => self.abend,
            StopPoint::Over(Ending::Abended(_)) => self.abend,
            StopPoint::Over(Ending::Ended) => self.end,
        }
    }

    /// The stop conditions that the words of a text name: its parts between blanks. None where a word isn't one.
    #[tactic(auto, unfolding(crate::specs::Stops::stops_named))]
    pub(crate) fn named(text: &[u8]) -> Option<Stops>
        ensures { result ≡ stops_named text.now }
    {
        text.split(|byte| *byte == BLANK)
            .fold(Some(Stops::NONE), with_part)
    }
}

/// The code of a blank.
const BLANK: u8 = 0x40;

/// Stop conditions and that of one more part of a text: an empty part is none.
fn with_part(stops: Option<Stops>, part: &[u8]) -> Option<Stops>
    ensures { result ≡ with_part stops part.now }
{
    let stops = stops?;
    if part.is_empty() {
        return Some(stops);
    }
    let word = spelled(part)?;
    Some(stops.with(word))
}

/// The stop condition that bytes spell.
#[tactic(auto, unfolding(crate::specs::Stops::stop_word_of))]
fn spelled(bytes: &[u8]) -> Option<StopWord>
    ensures { result ≡ stop_word_of bytes.now }
{
    if is_shown(bytes, b"ABEND") {
        Some(StopWord::Abend)
    } else if is_shown(bytes, b"END") {
        Some(StopWord::End)
    } else {
        let condition = shown_among(Condition::handled(), bytes)?;
        Some(StopWord::Met(condition))
    }
}

/// The first of some conditions whose name bytes spell.
fn shown_among(conditions: &[Condition], bytes: &[u8]) -> Option<Condition>
    ensures { result ≡ find (λ condition. is_shown_as (entry_of condition).name bytes.now) conditions.now }
{
    conditions
        .iter()
        .copied()
        .find(|condition| is_shown(bytes, condition.name().as_bytes()))
}

/// Whether bytes are shown as a text.
fn is_shown(bytes: &[u8], text: &[u8]) -> bool
    ensures { result ≡ is_shown_as text.now bytes.now }
{
    bytes.len() == text.len() && agrees(bytes, text)
}

/// Whether each byte is shown as its character, as far as there are both.
fn agrees(bytes: &[u8], text: &[u8]) -> bool
    ensures { result ≡ list_all (λ p. shown_as p.0 == p.1) (zip bytes.now text.now) }
{
    bytes
        .iter()
        .zip(text)
        .all(|pair| shown_byte(*pair.0) == *pair.1)
}
