//! Lines that belong to no part.

use std::io;

/// How many lines there were before all parts, or after the name of none.
#[derive(Drop)]
pub struct StrayLines {
    count: u64,
}

impl StrayLines {
    /// The lines before the first of them.
    pub fn new() -> Self {
        StrayLines { count: 0 }
    }

    /// Prints a line, and counts it.
    pub fn line(&mut self, rt: &HostRuntime, line: &str) -> io::Result<()> {
        self.count = self.count.saturating_add(1);
        println!(rt; "in no part: {line}")
    }

    /// Prints how many there were, if there were any.
    pub fn print(&self, rt: &HostRuntime) -> io::Result<()> {
        if self.count == 0 {
            return Ok(());
        }
        println!(rt; "{} in no part, {} differ", self.count, self.count)
    }
}
