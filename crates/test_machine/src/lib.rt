//! Tests of the machine's libraries over their public calls: characters, commands, addresses, stores, code, loading,
//! programs that change themselves; and of the search, over a small graph that is written down.
#![tactic(auto)]

#[cfg(test)]
mod addresses;
#[cfg(test)]
mod changes;
#[cfg(test)]
mod code;
#[cfg(test)]
mod command;
#[cfg(test)]
mod ebcdic;
pub mod graph;
#[cfg(test)]
mod load;
#[cfg(test)]
mod rows;
#[cfg(test)]
mod searching;
#[cfg(test)]
mod seen;
#[cfg(test)]
mod snapshots;
#[cfg(test)]
mod stores;
