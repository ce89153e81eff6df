//! Every list of keys that an operator can press, each once the tasks have come to rest.
#![tactic(auto)]

mod acting;
pub mod laws;
mod moves;
mod numbers;
mod search;
mod settling;
mod states;

pub use acting::is_at_rest;
pub use moves::Choices;
pub use settling::settle;
pub use states::{ChoicesState, Passage, TurnMade};
