//! What every list of keys that an operator can press leads to: the states, each with a script that leads there, what
//! is to be seen, and where each key leads from there.
#![tactic(auto)]

mod arrows;
pub mod laws;
mod lists;
mod numbers;
mod presses;
mod report;
mod rows;
mod screens;

pub use presses::Press;
pub use report::choices_text;
pub use rows::{Arrow, StateRow};
