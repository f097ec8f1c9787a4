//! Sets of the places of a block.
//!
//! Over the crate of words alone, for its words on lists. Reachability and the partition stand on this crate.
//! Read `specs/Sets.antt` first: a set is the rising list of its members. Then `src/set.rt`.
#![tactic(auto)]

mod set;
#[cfg(test)]
mod tests;

pub use set::{PLACES, Set};
