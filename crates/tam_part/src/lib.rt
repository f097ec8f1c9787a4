//! The partition of a block: the least pair of classes that may be merged is merged, until there is none.
//!
//! Over the crates of block graphs, of sets and of quotients. Thread code stands on this crate.
//! Read `specs/Partitions.antt` of `tam_split` first (`partition_of`), then `specs/Kept.antt` and `src/merging.rt`.
#![tactic(auto)]

mod kept;
mod merging;
#[cfg(test)]
mod tests;

pub use merging::partition;
