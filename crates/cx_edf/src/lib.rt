//! EDF: tasks of a region stopped before and after each command, and what was seen of them there.
#![tactic(auto)]

mod answers;
mod debugged;
mod displays;
pub mod laws;
mod modes;
mod run;
mod sessions;
mod stop_words;
mod stops;
mod table;

pub use answers::{AlterAnswer, Answer, EdfEvent, EdfReply, KeyAnswer, TurnAnswer};
pub use debugged::Debugged;
pub use displays::{Display, MakesDisplays};
pub use modes::{Mode, PageName, View};
pub use sessions::Session;
pub use stop_words::{StopWord, Stops};
pub use stops::{Ending, StopPoint};
