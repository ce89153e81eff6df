//! The next turn of a terminal, apart from its region: its machine, the instructions that it comes to one after
//! another, and what they leave.
#![tactic(auto)]

mod code;
pub mod laws;
mod machine;
mod traces;

pub use code::Code;
pub use machine::{
    KeptMachine, MOST_STEPS, TurnMachine, machine_after, machine_ahead, trace_ahead,
};
pub use traces::{Trace, Visit, instruction_at, trace_run};
