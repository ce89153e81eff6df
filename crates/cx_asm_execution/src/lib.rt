//! How a source's EXEC statements come to their commands: what is made of a source, assembled and loaded, and
//! performed, from the first instruction of a call to the entry.
#![tactic(auto)]

pub mod laws;
