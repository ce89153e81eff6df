//! Looks at a terminal's next turn: what it will do, AHEAD, and which instruction changed watched bytes last, WATCH.
#![tactic(auto)]

mod after;
mod ahead;
mod arrivals;
mod at;
mod bytes;
mod instructions;
pub mod laws;
mod rows;
mod watching;
mod writers;

pub use after::{after_text, fields_after_text};
pub use ahead::ahead_text;
pub use arrivals::{SourceLine, comes_to, has_statement};
pub use at::at_text;
pub use bytes::bytes_word;
pub use rows::{Row, rows_between};
pub use watching::{Cause, Done, Kept, Watches, change_lines};
pub use writers::{Work, work_of};
