//! How a task goes on after a command.
use cx_ebcdic::Name4;
use cx_region_state::NewLevel;

/// How a task goes on after a command.
#[derive(Clone, Copy)]
pub enum Continuation {
    /// After the command.
    GoesOn,
    /// At the label of the condition that was met.
    TakesLabel(u32),
    /// Not yet: the command waits.
    Waits,
    /// It abends with that code; no exit takes it where the flag says so.
    Abends(Name4, bool),
    /// At the entry of the program of a level under the current one.
    Enters(NewLevel),
    /// At the entry of the program of a level in place of the current one.
    Replaces(NewLevel),
    /// After the LINK of the level that linked to the current one.
    LevelEnds,
    /// Not at all: it ends.
    TaskEnds,
}
