//! Tests of tam_input: what is read over files in memory, and what is told in its place.
//!
//! They lie apart from it, so that it isn't proved a second time with them (docs/ARCHITECTURE.md, "The crates").
#![tactic(auto)]

#[cfg(test)]
mod tests;
