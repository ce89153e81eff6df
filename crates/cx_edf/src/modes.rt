//! Modes of a terminal under EDF, and what its operator sees.

use crate::stops::StopPoint;

/// The mode of a terminal under EDF.
#[derive(Clone, Copy)]
pub enum Mode {
    /// Its task runs, and stops before and after each command, at an exit, and at its end.
    Free,
    /// The operator sees the display of a stop, and the task, where it is live, doesn't run.
    Stopped(StopPoint),
    /// Its task runs, and stops only where its stop conditions say so.
    Suppressed,
}

/// A page of a display: the main page, the storage page or the user page.
#[derive(Clone, Copy, PartialEq, Eq)]
pub enum PageName {
    Main,
    Storage,
    User,
}

/// Which display is shown, and which page of it.
#[derive(Clone, Copy)]
pub struct View {
    /// How many displays before the newest it is; 0 is the newest.
    pub back: usize,
    /// Which of the display's pages.
    pub page: PageName,
}
