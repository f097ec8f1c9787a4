//! The activations and arrays of a graph at run time, and what a firing and a delivery do.
//!
//! Over the crates of graphs, messages and cells. Journals, and the runs of a graph, stand on this crate.
//! Read `specs/Worlds.antt` first: what a firing and a delivery do. Then `src/firings.rt` and `src/delivery.rt`.
#![tactic(auto)]

mod activation;
mod contents;
mod delivery;
mod effect;
mod finding;
mod firings;
mod messages;
mod need;
mod node_at;
pub mod nodes;
mod operands;
mod program;
mod table;
mod world;

pub use contents::Contents;
pub use delivery::{Delivery, Fault};
pub use effect::Effect;
pub use finding::{Sought, find_enter, find_merge, find_node};
pub use firings::firing;
pub use messages::argument_messages;
pub use need::Need;
pub use node_at::NodeAt;
pub use program::Program;
pub use world::World;

/// The number that names the outside.
pub const OUTSIDE: u32 = u32::MAX;
