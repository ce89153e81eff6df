//! Executing instructions: one step, runs of steps, and runs whose instructions are counted or noted.
#![tactic(auto)]

mod addresses;
mod arithmetic;
mod branches;
mod comparison;
mod decimal;
mod digits;
mod division;
mod fetch;
pub mod laws;
mod loads;
mod logic;
mod machine;
mod masks;
mod multiplication;
mod numbers;
mod operands;
mod places;
mod prefix;
mod registers;
mod repeats;
mod results;
mod rows;
mod runs;
mod sequence;
mod shifts;
mod stepping;
mod strings;
mod tallied;
mod translation;
mod watched;
mod words;
mod zoned;

pub use cx_code::Cpu;
pub use machine::{ENTRY, Halt, Interruption, Step, Updated};
pub use runs::advance;
pub use stepping::step;
pub use tallied::{Tally, advance_tallied};
pub use watched::{Watcher, advance_watched};
