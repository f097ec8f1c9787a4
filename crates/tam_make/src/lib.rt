//! Large inputs: texts of graphs that are made.
//!
//! Over the crates of the edge, of words, of graphs and of their texts. The program's mode `make` runs what this crate makes.
//! Read `specs/MadeTexts.antt` first, then `src/making.rt`.
#![tactic(auto)]

pub mod laws;
mod making;
mod shape;

pub use making::make;
pub use shape::Shape;
