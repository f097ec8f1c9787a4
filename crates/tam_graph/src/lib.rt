//! Dataflow graphs: codes, their nodes, and which graphs are accepted.
//!
//! Over the crates of words and of lines and names. The reader, the printer, the checker, the firing rules and the block graphs stand on this crate.
//! Read `specs/Graphs.antt` first, then `specs/Accepted.antt` (which graphs are accepted) and `specs/Texts.antt` (their canonical text).
#![tactic(auto)]

mod accepted;
mod check_cause;
mod code;
mod graph;
mod index;
mod kind;
mod laws;
mod name;
mod node;
mod place;

pub use accepted::Accepted;
pub use check_cause::CheckCause;
pub use code::Code;
pub use graph::Graph;
pub use kind::Kind;
pub use laws::law_walks;
pub use name::Name;
pub use node::Node;
pub use place::Place;
