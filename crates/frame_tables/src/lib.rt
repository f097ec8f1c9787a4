//! The rule of frames: what each of them holds, which are live, whose turn it is, and what each call does to them.
//!
//! Over no other crate. The code of threads, its laws and the store of frames stand on this crate.
//! Read `specs/FrameTables.antt`: the frames as lists. `specs/FrameExamples.antt` computes a few calls.
#![tactic(auto)]

mod answers;

pub use answers::{Full, Spend};
