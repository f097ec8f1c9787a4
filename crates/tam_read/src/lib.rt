//! Reads a graph from its text, or refuses the text at its first fault.
//!
//! Over words and graphs. The checker tells the faults of what was read, by its places.
//! Read `specs/Sentences.antt` first, what a line may say, then `specs/Faults.antt`, what is wrong with a text, and
//! `specs/Building.antt`, what a code's lines make. The first pass is `src/first_pass.rt`, the second `src/part.rt`; `src/reading.rt` makes the graph.
#![tactic(auto)]

mod block;
mod body;
mod branch;
mod building;
mod cause;
mod faults;
mod first_pass;
mod form;
mod keep;
mod line;
mod names;
mod naming;
mod node;
mod part;
mod pass;
mod placed;
mod reading;
mod refusal;
mod refused;
mod said;
mod table;

pub use cause::{Limit, ReadCause};
pub use placed::Lines;
pub use reading::{Found, read};
pub use refused::Refused;
