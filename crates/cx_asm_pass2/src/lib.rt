//! The assembler's second pass: what statements' operands are read by, and what is wrong with them.
#![tactic(auto)]

mod bases;
mod faults;
mod statements;
mod whole;

pub use bases::pass_bases;
pub use faults::{entry_of, instruction_of, literals_fault, made_fault};
pub use statements::{PlacedItem, Statement, StatementItem, placed_items, placed_lines, stated};
pub use whole::{control_name, counter_of, item_made, pool_of};
