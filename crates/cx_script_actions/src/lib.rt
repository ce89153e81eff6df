//! What the lines of a script ask, what it does to a region, and what is written for it.
#![tactic(auto)]

mod actions;
mod alterations;
mod effects;
pub mod laws;
mod performer;
mod texts;
mod words;

pub use actions::{Action, Line, NoHeading, Wanted, line_of};
pub use alterations::hex_address;
pub use effects::screen_text;
pub use performer::{Performer, ScriptAction};
pub use texts::answer_text;
pub use words::{name4, name8, number, split_word};
