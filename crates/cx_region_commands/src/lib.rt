//! How each of the twenty commands is judged, before anything changes: one module for each (HANDLE and IGNORE CONDITION
//! share one, and so do PUSH and POP HANDLE).
#![tactic(auto)]

mod abending;
mod address;
mod common;
mod deleteq_ts;
mod deq;
mod enq;
mod freemain;
mod getmain;
mod handle_abend;
mod handling;
mod judging;
pub mod laws;
mod link;
mod readq_ts;
mod receive;
mod returning;
mod send_text;
mod services;
mod suspend;
mod writeq_ts;
mod xctl;

pub use enq::{is_wrong_length, resource_named};
pub use judging::judge;
