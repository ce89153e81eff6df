//! What tests of scripts share: devices that move few bytes at a time, and fail; long lines.
#![tactic(auto)]

mod input;
mod lines;
mod output;

pub use input::PieceIn;
pub use lines::comment;
pub use output::PieceOut;
