//! Tests of tam_edge: files and sinks in memory and of the system, each at work and at a failing call.
//!
//! They lie apart from it, so that it isn't proved a second time with them (docs/ARCHITECTURE.md, "The crates").
#![tactic(auto)]

#[cfg(test)]
mod tests;
