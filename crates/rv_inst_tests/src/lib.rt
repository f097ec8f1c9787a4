//! Tests of rv_inst: words of an assembler, both ways, and the ends of the fields' ranges.
//!
//! They lie apart from it, so that it isn't proved a second time with them (docs/ARCHITECTURE.md, "The crates").
#![tactic(auto)]

#[cfg(test)]
mod tests;
