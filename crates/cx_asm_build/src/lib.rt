//! From the lines of a source to the image of its program: read, translated, assembled; and what is written of it.
#![tactic(auto)]

mod faults;
pub mod laws;
mod program;

pub use faults::{PrepareFault, SourceKind};
pub use program::{Prepared, prepare};
