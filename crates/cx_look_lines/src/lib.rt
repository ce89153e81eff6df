//! What the lines of looks are made of: words, names, bytes, registers; and reports, a line after the other.
#![tactic(auto)]

mod lines;
mod registers;
mod reports;
mod values;

pub use lines::{decimal, joined, push_word, push_words};
pub use registers::register_lines;
pub use reports::Report;
pub use values::{
    bytes_from, first_bytes, in_apostrophes, present, spelled, written_bytes, written_name,
};
