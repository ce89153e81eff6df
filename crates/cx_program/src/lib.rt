//! The program levels of a task, with what each has asked to be done for conditions and on an abend.
#![tactic(auto)]

mod choice;
mod condition_code;
mod entries;
mod faults;
mod handles;
pub mod laws;
mod level;
mod snapshots;
mod stack;

pub use choice::Choice;
pub use condition_code::ConditionCode;
pub use entries::{Entries, Exit, Handler, Handling};
pub use faults::ProgramFault;
pub use handles::HandleTable;
pub use level::Level;
pub use snapshots::LevelsSnapshot;
pub use stack::LevelStack;
