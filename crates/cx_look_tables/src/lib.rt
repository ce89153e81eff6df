//! Looks at tables by name: queues with their items, programs with their transactions, terminals.
#![tactic(auto)]

mod hidden;
pub mod laws;
mod looks;
mod programs;
mod queues;
mod rows;
mod terminals;

pub use hidden::{hidden_items, hidden_rows};
pub use looks::{item_text, programs_text, queue_text, queues_text};
pub use terminals::terminals_text;
