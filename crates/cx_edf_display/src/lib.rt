//! EDF's displays: three pages of what can be seen of a task where it stops.
#![tactic(auto)]

mod displays;
mod main_page;
mod seen;
mod storage_page;

pub use displays::EdfDisplays;
#[doc(hidden)]
pub use seen::Seen;
