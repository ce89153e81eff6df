//! What a turn is answered.
ghost use Rattle.std.specs.Prelude.{◌≡◌};
ghost use Rattle.cx_region_state.specs.Replies.{is_over, turn_reply_name};

use cx_base::Condition;
use cx_ebcdic::Name4;

/// What a turn of a terminal, or a half-turn of its task, is answered.
#[derive(Clone, Copy, PartialEq, Eq)]
pub enum TurnReply {
    /// The terminal has no task.
    Idle,
    /// No terminal of that name is defined.
    NoSuchTerminal,
    /// Instructions ran up to a command, which is due now.
    AtCommand,
    /// The command was performed with that condition, and the program goes on.
    Performed(Condition),
    /// The command was performed, and a program level begins.
    Entered,
    /// The command was performed, and the linking program goes on.
    Returned,
    /// The command waits: all is as before.
    Waiting,
    /// The command met that condition, whose label takes control.
    TookLabel(Condition),
    /// An abend of that code was taken by an exit.
    TookExit(Name4),
    /// The task ended by an abend of that code.
    Abended(Name4),
    /// The task ended by a RETURN of its highest level.
    Ended,
}

impl TurnReply {
    /// Whether the reply is that of a task's end: Ended or Abended.
    pub fn is_over(self) -> bool
        ensures { result ≡ is_over self }
    {
        matches!(self, TurnReply::Ended | TurnReply::Abended(_))
    }

    /// The reply's name, as `AtCommand`, without the condition or the code that it has.
    pub fn name(self) -> &'static str
        ensures { result.now ≡ turn_reply_name self }
    {
        match self {
            TurnReply::Idle => "Idle",
            TurnReply::NoSuchTerminal => "NoSuchTerminal",
            TurnReply::AtCommand => "AtCommand",
            TurnReply::Performed(_) => "Performed",
            TurnReply::Entered => "Entered",
            TurnReply::Returned => "Returned",
            TurnReply::Waiting => "Waiting",
            TurnReply::TookLabel(_) => "TookLabel",
            TurnReply::TookExit(_) => "TookExit",
            TurnReply::Abended(_) => "Abended",
            TurnReply::Ended => "Ended",
        }
    }
}
