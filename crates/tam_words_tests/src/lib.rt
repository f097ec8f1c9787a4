//! Tests of tam_words: what words ask for, and the causes of wrong ones.
//!
//! They lie apart from it, so that it isn't proved a second time with them (docs/ARCHITECTURE.md, "The crates").
#![tactic(auto)]

#[cfg(test)]
mod tests;
