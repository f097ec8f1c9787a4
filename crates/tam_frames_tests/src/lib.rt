//! Tests of tam_frames: frames taken, run, given back and taken again, also in every order of four.
//!
//! They lie apart from it, so that it isn't proved a second time with them (docs/ARCHITECTURE.md, "The crates").
#![tactic(auto)]

#[cfg(test)]
mod tests;
