//! Tests of tam_judge: partitions and journals of small graphs, worked by hand or by a program of its own.
//!
//! They lie apart from it, so that it isn't proved a second time with them (docs/ARCHITECTURE.md, "The crates").
#![tactic(auto)]

#[cfg(test)]
mod journals;
#[cfg(test)]
mod partitions;
#[cfg(test)]
mod random_journals;
