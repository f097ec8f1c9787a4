//! The reader and the printer of thread code as text.
//!
//! Over the crate of thread code. The program stands on this crate.
//! Read `specs/Reading.antt` first: which texts read as thread code, and what is told of every other.
#![tactic(auto)]

mod cause;
mod draft;
pub mod laws;
mod line;
mod next;
mod pass;
mod printer;
mod reader;
mod tokens;
mod verb;

pub use cause::{Cause0, Refused0};
pub use next::Next;
pub use printer::print0;
pub use reader::read0;
