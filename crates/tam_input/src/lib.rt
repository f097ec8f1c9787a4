//! What the program reads before it answers: its words, an order file and the job's file; or the line that is told in their place.
//!
//! Over the edge, the words and the order lists. The program stands on this crate.
//! Read `specs/Told.antt` and `specs/Refusing.antt` first, why a job isn't answered, then `specs/Inputs.antt`. Then `src/input.rt`.
#![tactic(auto)]

mod ending;
mod input;
mod refusal;

pub use ending::Ending;
pub use input::{Input, read_input};
pub use refusal::Refusal;
