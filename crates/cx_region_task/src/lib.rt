//! The one wrapper round all commands: what is decided of a command and what that leads to; and the half-turns of
//! tasks.
#![tactic(auto)]

mod abending;
mod areas;
mod blocks;
mod cause;
mod continuation;
mod deciding;
mod decision;
mod going;
pub mod laws;
mod making;
mod outputs;
mod performing;
mod turning;

pub use abending::end_by_abend;
pub use areas::{entry_level, entry_registers, get_at, get_filled, get_stg, put_cap, system_owner};
pub use cause::{AbendRecord, Cause};
#[doc(hidden)]
pub use continuation::Continuation;
pub use deciding::decide;
pub use decision::{Act, Decision, Wait};
pub use turning::half_turn;
