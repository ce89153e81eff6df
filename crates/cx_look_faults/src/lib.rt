//! Which lines of a source are faulty: those that any stage finds, each on what the one before gives in spite of its
//! faults; and where on each line the part is that is at fault.
#![tactic(auto)]

mod bases;
mod beside;
mod commands;
mod faults;
mod findings;
mod judging;
pub mod laws;
mod lists;
mod marks;
mod notes;
mod operands;
mod positions;
mod sections;
mod spans;

pub use commands::Phrase;
pub use faults::FaultyLine;
pub use findings::{Findings, findings_of};
pub use marks::Mark;
pub use notes::Note;
pub use operands::OperandPart;
pub use positions::{Position, Spot};
pub use spans::{Cell, Cut, Span};
