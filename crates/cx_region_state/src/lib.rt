//! A command's argument list read as a call; what the command reads and writes there, and what it reports in the
//! EXEC interface block.
//! What a half-turn of a task can reach, and how a command is judged, as data.
#![tactic(auto)]

mod call;
pub mod eib;
mod inputs;
pub mod laws;
mod listed;
mod outputs;
mod replicas;
mod replies;
mod report;
mod state;
mod verdict;

pub use call::{Call, CallFault, read_call};
pub use inputs::{CallInputs, StorageSpan, halfword, name4, name8, read_argument};
pub use listed::{Listed, ListedConditions};
pub use outputs::{Output, OutputValue, Outputs, have_room, put_outputs};
pub use replies::TurnReply;
pub use report::{CommandReport, put_report, resource};
pub use state::{Input, NextTransaction, Shared, Task, TerminalEntry};
pub use verdict::{
    AfterOutputs, BeforeOutputs, Copying, FIRST_OF_TASKS, Fill, Got, LAST_OF_TASKS, NewLevel,
    Request, RequestedTransaction, TaskChange, Verdict,
};
