//! The checker of graphs: a graph that breaks no rule is accepted, any other is refused at its first fault.
//!
//! Over the crate of graphs. What is run, split or emitted was accepted here.
//! Read `specs/FirstFault.antt` first: it says what is told of a graph. Then `src/checker.rt`.
#![tactic(auto)]

mod blocks;
mod checker;
mod code_tables;
mod cycles;
mod depths;
mod graph_tables;
mod interface;
mod lacking;
mod nodes;
mod order;
mod places;
mod ranks;
mod reached;
mod seen;
mod sizes;
mod sources;
mod table;

pub use checker::{CheckError, check};
pub use tam_graph::{Accepted, CheckCause};
