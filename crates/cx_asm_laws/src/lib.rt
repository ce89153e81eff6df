//! What comes back of what was assembled, where its constants are, and what the loader finds in it.
#![tactic(auto)]

pub mod laws;
