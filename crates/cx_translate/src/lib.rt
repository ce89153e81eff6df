//! The translator: EXEC CICS statements made into assembler statements.
#![tactic(auto)]

mod call;
mod due_arguments;
mod expansion;
mod faults;
pub mod laws;
mod names;
mod pieces;
mod refusals;
mod sections;
mod translation;
mod words;

pub use due_arguments::DueArgument;
pub use faults::TransFault;
pub use pieces::Token;
pub use translation::{translate, translate_or_faults, translate_with_faults};
pub use words::{Argument, Word};
