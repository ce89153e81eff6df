//! Runs vectors and measures, as the parts of its input say: a line `VECTORS` or `MEASURE` with a part's name begins
//! one, and the next such line or the end of the input ends it. A part of vectors prints those that the library
//! disagrees with, and at its end how many there were and how many of them differ:
//!
//! - `VECTORS spellings`: spellings of instructions (`spellings`);
//! - `VECTORS steps`: single instructions and short programs (`steps`);
//! - `VECTORS calls`: EXEC statements, up to their calls (`calls`).
//!
//! A part that measures has a module of its name, which says what its lines are:
//!
//! - `MEASURE storage`: the calls of stores;
//! - `MEASURE loops`: instructions, in loops;
//! - `MEASURE pass1`: the assembler's first pass.
//!
//! A line before all parts is printed and counted as a difference (`strays`). So are a line `VECTORS` or `MEASURE` with
//! another name, and what follows it up to the next part.
//!
//! In every module an error means that memory ran out, or that reading or printing failed.
#![tactic(auto)]

mod call_case;
mod call_judge;
mod call_layout;
mod call_program;
mod calls;
mod loops;
mod pass1;
mod slices;
mod spelling_vector;
mod spellings;
mod step_judge;
mod step_vector;
mod steps;
mod storage;
mod strays;

use crate::calls::CallPart;
use crate::pass1::Pass1Part;
use crate::spellings::SpellingPart;
use crate::steps::StepPart;
use crate::strays::StrayLines;
use std::io;
use std::io::{BufRead, BufReader};

/// What lines belong to.
#[derive(Drop)]
enum Part {
    Stray(StrayLines),
    Spellings(SpellingPart),
    Steps(StepPart),
    Calls(CallPart),
    Storage,
    Loops,
    Pass1(Pass1Part),
}

impl Part {
    /// What a line `VECTORS` or `MEASURE` begins.
    fn from_heading(rt: &HostRuntime, heading: &str) -> io::Result<Part> {
        match heading {
            "VECTORS spellings" => Ok(Part::Spellings(SpellingPart::new())),
            "VECTORS steps" => Ok(Part::Steps(StepPart::new(rt.alloc()))),
            "VECTORS calls" => Ok(Part::Calls(CallPart::new(rt.alloc()))),
            "MEASURE storage" => Ok(Part::Storage),
            "MEASURE loops" => Ok(Part::Loops),
            "MEASURE pass1" => Ok(Part::Pass1(Pass1Part::new(rt.alloc()))),
            other => {
                let mut strays = StrayLines::new();
                strays.line(rt, other)?;
                Ok(Part::Stray(strays))
            }
        }
    }

    /// Takes a line.
    fn line(&mut self, rt: &HostRuntime, line: &str) -> io::Result<()> {
        match self {
            Part::Stray(strays) => strays.line(rt, line),
            Part::Spellings(part) => part.line(rt, line),
            Part::Steps(part) => part.line(rt, line),
            Part::Calls(part) => part.line(rt, line),
            Part::Storage => storage::run_line(rt, line),
            Part::Loops => loops::run_line(rt, line),
            Part::Pass1(part) => Ok(part.line(line)?),
        }
    }

    /// Takes a line, which may begin another part: then this one ends.
    fn take(&mut self, rt: &HostRuntime, line: &str) -> io::Result<()> {
        if !line.starts_with("VECTORS ") && !line.starts_with("MEASURE ") {
            return self.line(rt, line);
        }
        self.end(rt)?;
        *self = Part::from_heading(rt, line)?;
        Ok(())
    }

    /// Prints the counts of vectors; places the source of the first pass, which is complete.
    fn end(&self, rt: &HostRuntime) -> io::Result<()> {
        match self {
            Part::Stray(strays) => strays.print(rt),
            Part::Spellings(part) => part.print(rt),
            Part::Steps(part) => part.print(rt),
            Part::Calls(part) => part.print(rt),
            Part::Storage | Part::Loops => Ok(()),
            Part::Pass1(part) => part.end(rt),
        }
    }
}

fn main(rt: HostRuntime) -> io::Result<()> {
    let mut part = Part::Stray(StrayLines::new());
    for line in BufReader::new(rt.alloc(), rt.reader())?.lines(rt.alloc()) {
        let line = line?;
        part.take(&rt, line.as_str())?;
    }
    part.end(&rt)
}
