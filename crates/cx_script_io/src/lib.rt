//! What a script is read from and written to, and the lines of what was read.
#![tactic(auto)]

mod both;
mod devices;
mod input;
pub mod laws;
mod lines;
mod memory;
mod output;
mod output_buffer;
mod streams;

pub use both::Devices;
pub use devices::{DeviceFault, ScriptDevices, ScriptIn, ScriptOut};
pub use input::Ending;
pub use lines::{in_front, is_too_long, last_line, split_line, strip_carriage_return};
pub use memory::{MemoryIn, MemoryOut};
pub use output::write_all;
pub use output_buffer::OutputBuffer;
pub use streams::Std;
