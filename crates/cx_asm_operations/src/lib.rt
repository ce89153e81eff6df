//! The operations of assembler statements, one table.
#![tactic(auto)]

pub mod laws;
mod operations;

pub use operations::{Directive, Mask, Operation};
