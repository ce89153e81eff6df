//! A search over the states of a space: which states moves can lead to, each once, by the soonest list of moves.
#![tactic(auto)]

mod forever;
mod found;
pub mod laws;
mod marks;
mod rest;
mod space;
mod within;

pub use found::{Found, Origin, Outcome, search};
#[doc(hidden)]
pub use marks::Rule;
pub use space::Space;
pub use within::{Near, Reach, search_within};
