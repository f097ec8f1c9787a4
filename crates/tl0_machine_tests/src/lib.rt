//! Tests of tl0_machine: runs of programs made by hand.
//!
//! They lie apart from it, so that it isn't proved a second time with them (docs/ARCHITECTURE.md, "The crates").
#![tactic(auto)]

#[cfg(test)]
mod tests;
