//! The headline: what the programs promise, one law for each clause, over what they run.
#![tactic(auto)]

pub mod laws;
