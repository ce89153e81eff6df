//! The assembler's first pass: sections, symbols, literal pools, and where each statement is.
#![tactic(auto)]

mod all_faults;
mod checked;
mod faults;
mod given;
pub mod laws;
mod layout;
mod pass;
mod place;
mod places;
mod roles;

pub use all_faults::LineFaults;
pub use faults::first_fault_after;
pub use given::location_counter;
pub use place::{ControlSection, LineFault, Place};
pub use places::{Places, place_all, place_with_faults};
pub use roles::Role;
