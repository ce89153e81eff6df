//! `PagedStore`: the store of `cx_storage` in pages of 4,096 bytes, in which a byte is found by its address alone,
//! however many areas there are. `KeepingStore`: a store over a store, which keeps bytes that were fetched, so that
//! they are found at once when they are fetched again.
#![tactic(auto)]

mod directory;
mod frame;
mod keeping;
mod page;
mod paged;
mod slots;
mod store;
mod table;

pub use keeping::KeepingStore;
pub use paged::PagedStore;
