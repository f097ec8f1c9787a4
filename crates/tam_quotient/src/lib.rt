//! The classes of a partition as a graph of their own: what a class leads to, what leads to it, with which it may be made one.
//!
//! Over the crates of block graphs and of sets. The partition and the check of partitions stand on this crate.
//! Read `specs/Quotients.antt` first, then `src/gather.rt`.
#![tactic(auto)]

mod block;
mod gather;
mod spread;
mod validity;
mod ways;

pub use gather::{quotient, ways_alone};
pub use validity::is_valid;
pub use ways::Ways;
