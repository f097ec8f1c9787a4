//! Words of 32 bits: what the operators mean, how a word is read and printed, and the names of the operators.
//!
//! Over no other crate of ours. Every other crate but the edge stands on this one.
//! Read `specs/Words.antt` first: it is the table of the operators. Then `specs/Numbers.antt`: which texts are words.
#![tactic(auto)]

pub mod laws;
mod op;
mod print;
mod read;

pub use op::{OPS, Op, apply, op_name, op_of};
pub use print::{print_number, print_word};
pub use read::{read_number, read_word};
