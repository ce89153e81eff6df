//! What every order of turns and keys leads to: the outcomes, each with a script that leads there.
#![tactic(auto)]

pub mod laws;
mod outcomes;
mod report;
mod rest;
mod steps;

pub use outcomes::Outcome;
pub use report::orders_text;
pub use rest::rest_text;
