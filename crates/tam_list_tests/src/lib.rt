//! Tests of tam_list: the listings of two small graphs.
//!
//! They lie apart from it, so that it isn't proved a second time with them (docs/ARCHITECTURE.md, "The crates").
#![tactic(auto)]

#[cfg(test)]
mod tests;
