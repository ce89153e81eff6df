//! Scripts: what is done line by line over a region, and the transcript of it.
#![tactic(auto)]

pub mod laws;
mod run;
mod script;

pub use cx_script_actions::{Performer, ScriptAction};
pub use cx_script_blocks::{RunFault, SourceKind, Summary, status};
pub use cx_script_io::{
    DeviceFault, Devices, Ending, MemoryIn, MemoryOut, ScriptDevices, ScriptIn, ScriptOut, Std,
};
pub use script::{EdfPerformer, edf_performer, run_script, run_script_on};
