//! Scripts with looks: what a script of `cicslook` is performed on.
#![tactic(auto)]

mod action;
mod choices;
mod covered;
mod faults;
mod help;
pub mod laws;
mod looks;
mod orders;
mod performer;
mod sources;
mod telling;
mod turns;
mod watched;

pub use action::{Heading, LookAction, Stop, WatchLine};
pub use performer::{LookPerformer, LookedRegion, look_performer};
