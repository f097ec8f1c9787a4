//! Which inlets of a block reach a vertex, and which outlets a vertex reaches.
//!
//! Over the crates of block graphs and of sets. The listings of sets and the check of partitions stand on this crate.
//! Read `specs/Blocks.antt` of `tam_split` first (`dependences`, `demands`), then `src/reach.rt`.
#![tactic(auto)]

mod reach;
#[cfg(test)]
mod tests;

pub use reach::{demands, depends};
