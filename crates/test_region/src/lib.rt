//! Tests over public calls: of a program's levels and handles and of the services; of the region, and of the
//! instructions made of EXEC statements, which storage holds, which are run, and whose list is read; of a script's
//! devices, by pieces of every length, failures at every byte, the most bytes of a script, answers before more is read.
#![tactic(auto)]

#[cfg(test)]
mod answers;
#[cfg(test)]
mod arrival;
#[cfg(test)]
mod blocks;
#[cfg(test)]
mod bound;
#[cfg(test)]
mod call;
#[cfg(test)]
mod devices;
#[cfg(test)]
mod handles;
#[cfg(test)]
mod levels;
#[cfg(test)]
mod pieces;
#[cfg(test)]
mod queues;
#[cfg(test)]
mod region;
#[cfg(test)]
mod resources;
#[cfg(test)]
mod runs;
#[cfg(test)]
mod screens;
#[cfg(test)]
mod steps;
#[cfg(test)]
mod sweep;
