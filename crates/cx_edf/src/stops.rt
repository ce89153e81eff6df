//! Where EDF stops a task.

use cx_base::Condition;
use cx_ebcdic::Name4;

/// How a task ended.
#[derive(Clone, Copy)]
pub enum Ending {
    /// By RETURN of its highest level.
    Ended,
    /// By an abend of that code.
    Abended(Name4),
}

/// Where EDF stops a task.
#[derive(Clone, Copy)]
pub enum StopPoint {
    /// Before the command that is due.
    Before,
    /// After a command, which met that condition.
    After(Condition),
    /// An exit took an abend of that code.
    Exit(Name4),
    /// The task is over.
    Over(Ending),
}
