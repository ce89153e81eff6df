//! What of a program its keys never touched: how often its instructions were run, and which of its statements and
//! conditional branches were not.
#![tactic(auto)]

mod counts;
pub mod laws;
mod looks;
mod ranges;
mod statements;
mod tallies;
mod texts;

pub use counts::Counted;
pub use looks::{covered_all_text, covered_lines_text, covered_text};
pub use ranges::LineRange;
pub use statements::instruction_places;
pub use tallies::{Tallies, programs_end};
