//! Looks at what tasks are doing: the commands that are due, what they wait for, and the resources that they own.
#![tactic(auto)]

mod activities;
mod judging;
pub mod laws;
mod lines;
mod region;
mod resources;
mod tasks;
mod waits;
mod words;

pub use activities::{Activity, Wait};
pub use judging::activity;
pub use region::command_text;
pub use resources::resources_text;
pub use tasks::{activities_in, command_word, tasks_text};
pub use waits::waits_text;
pub use words::call_text;
