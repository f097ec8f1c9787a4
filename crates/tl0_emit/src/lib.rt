//! The thread code of an accepted graph, made from the partitions of its blocks.
//!
//! Over the crates of class orders, of the tables of graphs and of thread code. The program, and machine code, stand on this crate.
//! Read `specs/CodeParts.antt` first, then `src/code_tables.rt`: the numbers that instructions name.
#![tactic(auto)]

mod block_flow;
mod class_threads;
mod code_blocks;
mod code_tables;
mod code_threads;
mod connectors;
mod emission;
mod inlet_threads;
mod instructions;
mod node_tables;
mod standing;

pub use code_tables::CodeTables;
pub use emission::emit;
