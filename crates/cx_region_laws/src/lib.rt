//! What holds of every half-turn of a task, of every event of a region, and of every run of events.
#![tactic(auto)]

pub mod laws;
