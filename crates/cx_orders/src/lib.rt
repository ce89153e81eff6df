//! Every order of a region's turns and of keys that are to come.
#![tactic(auto)]

mod incidents;
pub mod laws;
mod moves;
mod search;
mod states;

pub use incidents::{incident_of_key, incident_of_turn};
#[doc(hidden)]
pub use moves::Asked;
pub use moves::{Orders, is_ready, key_of};
pub use search::begin;
pub use states::{Incident, IncidentAt, KeyLine, Keys, OrdersState};
