//! The part of calls: EXEC statements, each in a program of its own, which is read, translated, assembled, loaded and
//! run until the command is called: the argument list that is found there must be the command's, and each argument's
//! place the one that its own expression has by the sections' layout, which is worked out here from the fields'
//! definitions.
//!
//! A case begins with a line `CASE` with its name and ends with `DONE`; what comes between is explained in `call_case`.
//! Each case that ends otherwise is printed, and last how many there were and how many of them differ.

use crate::call_case::Case;
use crate::call_judge::agrees;
use std::alloc::Global;
use std::io;

/// The case that lines belong to, how many cases there were, and how many of them differ.
#[derive(Drop)]
pub struct CallPart {
    case: Case,
    done: u64,
    differ: u64,
}

impl CallPart {
    /// The part before its first line.
    pub fn new(alloc: Global) -> Self {
        CallPart {
            case: Case::new(alloc),
            done: 0,
            differ: 0,
        }
    }

    /// Takes a line of a case. With the case's last line the case is judged and counted, and its name is printed where
    /// it ends otherwise than it says.
    pub fn line(&mut self, rt: &HostRuntime, line: &str) -> io::Result<()> {
        if self.case.take(rt.alloc(), line)? {
            self.end_case(rt)?;
        }
        Ok(())
    }

    /// Judges the case, and counts it.
    fn end_case(&mut self, rt: &HostRuntime) -> io::Result<()> {
        self.done = self.done.saturating_add(1);
        if !agrees(rt.alloc(), &self.case)? {
            self.differ = self.differ.saturating_add(1);
            rt.println(self.case.name.as_str())?;
        }
        self.case = Case::new(rt.alloc());
        Ok(())
    }

    /// Prints how many cases there were, and how many of them differ.
    pub fn print(&self, rt: &HostRuntime) -> io::Result<()> {
        println!(rt; "{} cases done, {} differ", self.done, self.differ)
    }
}
