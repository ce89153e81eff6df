//! What each line of a script leads to; blocks of images, of sources, and of lines that are handed over; the faults
//! that a script may have, and their statuses.
#![tactic(auto)]

mod blocks;
mod faults;
mod shown;

#[doc(hidden)]
pub use blocks::{Block, Body, LineStep, step_at, with_text};
pub use cx_asm_build::SourceKind;
pub use faults::{RunFault, Summary, status};
pub use shown::printable_byte;
