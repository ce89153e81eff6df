//! Bytes of a region's storage as they are shown: in hexadecimal, and as characters.
#![tactic(auto)]

mod rows;

pub use rows::{character_group, hex_at, hex_group, read_bytes, row_text};
