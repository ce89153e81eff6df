//! What a level's program has asked to be done for each condition, and on an abend.
ghost use Rattle.std.specs.Prelude.{◌≡◌};
ghost use Rattle.cx_program.specs.Entries.{entry_for, label_on, turned_off, turned_on, with_entry};

use cx_base::{CONDITIONS, Condition};

/// What is to be done where a command meets a condition.
///
/// Application Programmer's Reference Manual, SC33-0077, HANDLE CONDITION and IGNORE CONDITION.
#[derive(Clone, Copy, PartialEq, Eq, Default)]
pub enum Handler {
    /// The program has asked for nothing, or has put the condition back.
    #[default]
    NoEntry,
    /// The instruction at this address takes control.
    Label(u32),
    /// The program goes on after the command.
    Ignored,
}

/// The exit that takes an abend.
///
/// Application Programmer's Reference Manual, SC33-0077, HANDLE ABEND.
#[derive(Clone, Copy, PartialEq, Eq, Default)]
pub enum Exit {
    /// None was set.
    #[default]
    NoExit,
    /// The exit at this address was turned off. It can be turned on again.
    Off(u32),
    /// The exit at this address takes an abend.
    On(u32),
}

impl Exit {
    /// The exit turned off; the same where there is none.
    pub(crate) fn turned_off(self) -> Exit
        ensures { result ≡ turned_off self }
    {
        match self {
            Exit::On(label) | Exit::Off(label) => Exit::Off(label),
            Exit::NoExit => Exit::NoExit,
        }
    }

    /// The exit turned on; the same where there is none.
    pub(crate) fn turned_on(self) -> Exit
        ensures { result ≡ turned_on self }
    {
        match self {
            Exit::On(label) | Exit::Off(label) => Exit::On(label),
            Exit::NoExit => Exit::NoExit,
        }
    }

    /// The exit's address, where there is one and it is on.
    pub(crate) fn label_on(self) -> Option<u32>
        ensures { result ≡ label_on self }
    {
        match self {
            Exit::On(label) => Some(label),
            Exit::Off(_) | Exit::NoExit => None,
        }
    }
}

/// The entry of each condition, at the condition's place (`Condition::place`). NORMAL's is the first; no choice is made
/// for NORMAL, so nothing asks for it.
#[derive(Clone, Copy)]
pub struct Entries {
    /// The entries in the order of the conditions' numbers.
    pub of: [Handler; CONDITIONS],
}

impl Default for Entries {
    ghost use Rattle.cx_program.specs.Entries.{nothing_asked};

    ghost is_default = { λ entries. entries ≡ nothing_asked.entries };

    /// No entry for any condition.
    fn default() -> Entries {
        Entries {
            of: [Handler::NoEntry; CONDITIONS],
        }
    }
}

impl Entries {
    /// What is to be done where a command meets a condition.
    #[tactic(auto, unfolding(crate::specs::Entries::entry_for))]
    pub fn entry_for(&self, condition: Condition) -> Handler
        ensures { result ≡ entry_for self.now condition }
    {
        self.of[condition.place()]
    }

    /// Gives a condition a new entry.
    #[tactic(auto, unfolding(crate::specs::Entries::with_entry))]
    pub(crate) fn put(&mut self, condition: Condition, entry: Handler)
        ensures { self.new ≡ with_entry self.old condition entry }
    {
        self.of[condition.place()] = entry;
    }
}

/// All that a level's program has asked for: what PUSH HANDLE keeps and POP HANDLE puts back.
#[derive(Clone, Copy, Default)]
pub struct Handling {
    /// The entries for conditions.
    pub entries: Entries,
    /// The exit that takes an abend.
    pub exit: Exit,
}
