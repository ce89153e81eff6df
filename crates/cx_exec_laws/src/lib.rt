//! What holds of every step and every run of steps, and what the definitions of instructions come to.
#![tactic(auto)]

pub mod laws;
