//! Why a trial ends before its time.

use cx_region::DefineFault;
use std::alloc::{AllocError, AllocFailed};

/// What must not be met.
#[derive(Clone, Copy, Debug, PartialEq, Eq)]
pub enum Violation {
    /// A definition is refused.
    Definition,
    /// A task is past a limit, or its EIB or DFHEISTG lacks a byte.
    Task,
    /// The task or the screen of a terminal was changed by an event of another.
    Other,
    /// A key, a turn or EDF itself isn't answered as the mode asks.
    Answer,
    /// A display is shown outside Stopped, or none is in Stopped, or not as many are kept as there were stops, ten at
    /// most.
    Display,
    /// Without EDF the answer or the task differs.
    Erased,
}

impl Violation {
    /// The violation in words, as it is printed.
    pub fn text(self) -> &'static str {
        match self {
            Violation::Definition => "a definition is refused",
            Violation::Task => "a task is past a limit, or lacks bytes",
            Violation::Other => "another terminal was changed",
            Violation::Answer => "an answer doesn't fit the mode",
            Violation::Display => "a display is missing, or one too many",
            Violation::Erased => "without EDF it goes otherwise",
        }
    }
}

/// Why a trial ends before its time.
#[derive(Drop)]
pub enum Stop {
    /// Memory ran out.
    Memory,
    /// What must not be met was met.
    Met(Violation),
}

impl From<AllocError> for Stop {
    fn from(_refused: AllocError) -> Stop {
        Stop::Memory
    }
}

impl<T: Drop> From<AllocFailed<T>> for Stop {
    fn from(_refused: AllocFailed<T>) -> Stop {
        Stop::Memory
    }
}

impl From<DefineFault> for Stop {
    fn from(fault: DefineFault) -> Stop {
        match fault {
            DefineFault::Memory => Stop::Memory,
            _ => Stop::Met(Violation::Definition),
        }
    }
}

/// Stops with a violation unless something holds.
pub fn unless(holds: bool, violation: Violation) -> Result<(), Stop> {
    if holds {
        Ok(())
    } else {
        Err(Stop::Met(violation))
    }
}
