//! What a program of scripts does when it is started: what it runs, what it writes on standard error, and its status.
#![tactic(auto)]

mod arguments;
mod host;
mod keeping;
mod program;
mod shown;
mod starting;

pub use host::{Host, Machine};
pub use program::{About, Refusal, Run, Texts, program_status, run_opened, run_reader};
pub use starting::start;
