//! What tasks share beside storage: temporary storage queues, enqueued resources, and each terminal's screen; equal
//! ones of each are made and compared.
#![tactic(auto)]

mod enqueues;
mod faults;
pub mod laws;
mod queues;
mod replicas;
mod resources;
mod screen;

pub use enqueues::Enqueues;
pub use faults::ServiceFault;
pub use queues::{Queues, Reading};
// A crate can name the queues in a contract only if the type of their fields is exported.
#[doc(hidden)]
pub use queues::Queue;
pub use resources::{Hold, NameBytes, ResourceName};
pub use screen::{COLUMNS, ROWS, Screen};
