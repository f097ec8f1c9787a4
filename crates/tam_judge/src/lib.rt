//! The checks of partitions and of journals: whether a partition of a block is valid, and whether a list of events may be a journal.
//!
//! Over the crates of partitions, quotients, worlds and journals. No other crate stands on this one: it says by running what the definitions say.
//! Read `src/journal.rt` first, beside `tam_flow`'s `specs/Journals.antt`.
#![tactic(auto)]

mod before;
mod class_run;
mod firing_order;
mod journal;
mod lists;
mod machine;
mod opening;
mod parts;
mod steps;

pub use journal::{JournalEvent, check_journal};
pub use parts::check_parts;
