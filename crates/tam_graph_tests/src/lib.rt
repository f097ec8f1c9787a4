//! Tests of tam_graph: names, and a graph that is made of its parts.
//!
//! They lie apart from it, so that it isn't proved a second time with them (docs/ARCHITECTURE.md, "The crates").
#![tactic(auto)]

#[cfg(test)]
mod accepted;
#[cfg(test)]
mod name;
