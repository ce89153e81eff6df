//! Characters and names in EBCDIC, and the attention identifiers of a 3270 terminal.
#![tactic(auto)]

mod aids;
mod characters;
pub mod laws;
mod lines;
mod names;

pub use aids::Aid;
pub use characters::{shown_as, to_ebcdic};
pub use lines::{TextFault, encode_line};
pub use names::{Name, Name4, Name8};
