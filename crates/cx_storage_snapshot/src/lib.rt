//! `StorageSnapshot`: the areas of a store with their bytes, kept apart from it, to be compared and given to a store
//! like it.
#![tactic(auto)]

mod area;
mod reading;
mod snapshot;
mod writing;

pub use area::AreaCopy;
pub use snapshot::StorageSnapshot;
