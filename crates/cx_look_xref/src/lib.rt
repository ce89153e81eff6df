//! The cross-reference of a program's source: the lines that use its names and literals, and those in which its base
//! registers are in use.
#![tactic(auto)]

mod all;
mod given;
mod lines;
mod literals;
mod looks;
mod names;
mod references;
mod symbols;
mod uses;
mod usings;

pub use lines::used_word;
pub use literals::literal_lines;
pub use looks::xref_text;
pub use references::{Reference, references_of, stores_of};
pub use usings::using_lines;
