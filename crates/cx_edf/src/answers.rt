//! Events under EDF, and what each is answered.
ghost use Rattle.std.specs.Prelude.{◌≡◌};
ghost use Rattle.cx_edf.specs.Answers.{alter_answer_name, edf_reply_name};

use cx_ebcdic::Name4;
use cx_region::{AlterReply, Event, KeyReply, Reply, TurnReply};

/// What EDF ON or EDF OFF is answered.
#[derive(Clone, Copy, PartialEq, Eq)]
pub enum EdfReply {
    /// A session began.
    Started,
    /// The terminal has a session.
    AlreadyOn,
    /// The session is over.
    Closed,
    /// The terminal has no session.
    NotOn,
    /// No terminal of that name is defined.
    NoSuchTerminal,
}

impl EdfReply {
    /// The reply's name, as `Started`.
    pub fn name(self) -> &'static str
        ensures { result.now ≡ edf_reply_name self }
    {
        match self {
            EdfReply::Started => "Started",
            EdfReply::AlreadyOn => "AlreadyOn",
            EdfReply::Closed => "Closed",
            EdfReply::NotOn => "NotOn",
            EdfReply::NoSuchTerminal => "NoSuchTerminal",
        }
    }
}

/// What a key is answered under EDF.
#[derive(Clone, Copy)]
pub enum KeyAnswer {
    /// The key was the region's, which replied so.
    Region(KeyReply),
    /// The key was EDF's.
    ToEdf,
}

/// What a turn is answered under EDF.
#[derive(Clone, Copy)]
pub enum TurnAnswer {
    /// The turn was the region's, which replied so.
    Region(TurnReply),
    /// The task is stopped: nothing was done.
    Held,
}

/// What an alteration is answered under EDF.
#[derive(Clone, Copy)]
pub enum AlterAnswer {
    /// The alteration was the region's, which replied so.
    Region(AlterReply),
    /// The terminal isn't in Stopped: nothing was done.
    NotStopped,
}

impl AlterAnswer {
    /// The answer's name, as `Altered`.
    pub fn name(self) -> &'static str
        ensures { result.now ≡ alter_answer_name self }
    {
        match self {
            AlterAnswer::Region(reply) => reply.name(),
            AlterAnswer::NotStopped => "NotStopped",
        }
    }
}

/// An event under EDF.
#[derive(Drop)]
pub enum EdfEvent {
    /// An event of the region.
    Plain(Event),
    /// `edf_on`: the terminal.
    On(Name4),
    /// `edf_off`: the terminal.
    Off(Name4),
}

/// What an event is answered under EDF.
#[derive(Clone, Copy, PartialEq, Eq)]
pub enum Answer {
    /// The event was the region's, which replied so.
    Region(Reply),
    /// A key was EDF's.
    ToEdf,
    /// A turn of a task that is stopped: nothing was done.
    Held,
    /// An alteration of a terminal that isn't in Stopped: nothing was done.
    NotStopped,
    /// The answer of EDF ON or EDF OFF.
    Edf(EdfReply),
}
