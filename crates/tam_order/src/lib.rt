//! How the classes of a block's partition follow one another, and how the vertices of a class do: what the code of threads is made of.
//!
//! Over the crates of block graphs and of sets of places. The emitter of thread code stands on this crate.
//! Read `specs/ClassOrders.antt`, then `src/classes.rt` and `src/firing.rt`.
#![tactic(auto)]

mod classes;
mod firing;

pub use classes::{class_numbers, classes_behind, listed, number_before};
pub use firing::{firing_order, preceding};
