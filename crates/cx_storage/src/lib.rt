//! Storage of the region: areas of bytes at addresses below 2^24, with their owners. The trait `Store`
//! says what every implementation of it does, as clauses over one list of areas with their bytes
//! (`specs/Storage.antt`). `FlatStore` is the plain, slow one that others are compared with.
#![tactic(auto)]

mod address;
mod areas;
mod flat;
pub mod laws;
mod stores;
mod word;

pub use address::{address_after, address_in, next_address};
pub use areas::{Area, Kind, Owner};
pub use flat::FlatStore;
pub use stores::Store;
pub use word::{halfword_at, word_at};
