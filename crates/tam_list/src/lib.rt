//! Texts that list an accepted graph: its size, the sets of its vertices, and the classes of its blocks.
//!
//! Over the crates of block graphs, reachability and the partition. The program stands on this crate.
//! Read `specs/Listings.antt` first: it says each text.
#![tactic(auto)]

mod block_classes;
mod block_sets;
mod blocks;
mod counting;
mod size;
mod text;
mod told;
mod vertices;

pub use blocks::{print_parts, print_sets};
pub use size::print_check;
