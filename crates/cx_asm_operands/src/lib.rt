//! The second pass of one assembler statement: what its operands make (an instruction, bases in use, values), or their
//! lowest fault.
#![tactic(auto)]

mod addresses;
mod bases;
mod checking;
mod context;
mod directives;
mod forms;
pub mod laws;
mod storage;

pub use addresses::Address;
pub use bases::{Base, Bases, Dropped, Using};
pub use context::Context;
pub use directives::{copy_fault, read_drop, read_entry, read_using};
pub use forms::{literal_in, resolve};
