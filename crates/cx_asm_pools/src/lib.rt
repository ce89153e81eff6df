//! The literal pools of an assembler source, while they are open and in their places.
#![tactic(auto)]

mod closed;
pub mod laws;
mod open;
mod texts;

pub use closed::{Literal, Pool};
pub use open::{OpenPool, Used, capped, literal_text};
