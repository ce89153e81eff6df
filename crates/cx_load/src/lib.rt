//! Checking and loading images.
#![tactic(auto)]

mod fault;
pub mod laws;
mod program;
mod replicas;

pub use fault::{CheckedImage, ImageFault, check};
pub use program::{
    FIRST_OF_PROGRAMS, LAST_OF_PROGRAMS, LoadFault, Loaded, has_room, load, program_place,
};
