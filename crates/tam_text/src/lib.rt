//! Lines, words and names of the text formats: what a line is, which bytes may stand in it, and which of its words are names.
//!
//! Over no other crate of ours but words. Graph texts and assembly texts are read with this crate.
//! Read `specs/Lines.antt` and `specs/Names.antt` first. Then `src/lines.rt`.
#![tactic(auto)]

mod lines;
mod names;
#[cfg(test)]
mod tests;
mod words;

pub use lines::{are_good_bytes, split_line};
pub use names::{is_name, is_same};
pub use words::{is_blank, without_comment, words_of};
