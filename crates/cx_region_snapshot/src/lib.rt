//! `RegionSnapshot`: all that a region keeps, kept apart from it, to be compared and put back; and a turn that is done
//! apart from a region.
#![tactic(auto)]

mod queues;
mod snapshot;
mod task;
mod terminal;
mod turned;

pub use snapshot::RegionSnapshot;
// A crate can name the snapshot in a contract only if the types of its fields are exported.
#[doc(hidden)]
pub use queues::KeptQueues;
#[doc(hidden)]
pub use snapshot::Defined;
#[doc(hidden)]
pub use task::TaskSnapshot;
#[doc(hidden)]
pub use terminal::TerminalSnapshot;
pub use turned::turn_apart;
