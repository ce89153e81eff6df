//! What is done for a condition.

use cx_ebcdic::Name4;

/// What is done for a condition that a command met.
///
/// Application Programmer's Reference Manual, SC33-0077, "Exceptional conditions".
#[derive(Clone, Copy, PartialEq, Eq)]
pub enum Choice {
    /// The instruction at this address takes control.
    Label(u32),
    /// The program goes on after the command.
    GoOn,
    /// The command waits, to be tried again.
    Wait,
    /// The task abends with this code, unless an exit takes the abend.
    Abend(Name4),
}
