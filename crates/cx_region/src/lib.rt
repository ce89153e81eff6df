//! The region: definitions of programs, transactions and terminals, keys, turns, alterations, and runs of such events.
#![tactic(auto)]

mod alter;
mod asking;
mod attach;
mod changes;
mod defining;
mod events;
mod looking;
mod parts;
mod replies;
mod state;
mod turn;

#[doc(hidden)]
pub use asking::{KeyEffect, Places, Start};
pub use changes::{AlterReply, Change};
pub use cx_region_state::{Call, CallFault, TurnReply, read_call};
#[doc(hidden)]
pub use cx_region_state::{Input, NextTransaction, Shared, Task, TerminalEntry};
pub use cx_region_task::{AbendRecord, Cause};
pub use looking::{command_name, terminal_at};
#[doc(hidden)]
pub use parts::{ChangedParts, ChangedTerminal, KeptTerminal, RegionParts};
pub use replies::{DefineFault, Event, KeyReply, Reply, RunStop, TaskInfo};
pub use state::Region;
#[doc(hidden)]
pub use state::Terminal;
