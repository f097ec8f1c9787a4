//! The printer of graphs: the canonical text, which reads as the same graph.
//!
//! Over the crates of the edge, of words and of graphs. Each mode that prints a graph stands on this crate.
//! Read `src/printing.rt` first. `specs/PrintedLines.antt` says what each part of a graph is printed as.
#![tactic(auto)]

mod block;
pub mod laws;
mod line;
mod node;
mod printing;

pub use printing::print;
