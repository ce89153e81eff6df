//! Steps that lead to a state, as the lines of a script; and what was kept of the way, and is to be seen there.
#![tactic(auto)]

mod incidents;
pub mod laws;
mod script;
mod seen;
mod steps;

pub use incidents::incident_lines;
#[doc(hidden)]
pub use script::Row;
pub use script::script_lines;
pub use seen::Seen;
pub use steps::{Step, many_of};
