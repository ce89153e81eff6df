//! The assembler: the image, the listing and the resolved lines of a source.
#![tactic(auto)]

mod assembly;
mod constants;
mod faults;
pub mod laws;
mod listing;
mod pass;
mod section;
mod standing;

pub use assembly::{Assembly, assemble, disassembly, pass_faults};
pub use faults::{AsmFault, fault_at};
pub use listing::object_length;
