//! The checker of thread code: a program that breaks no rule is handed on as checked, any other is handed back with its first fault.
//!
//! Over the crate of thread code. The machine of threads and what makes machine code of them stand on this crate.
//! Read `specs/FirstFault.antt` first: it says what is told of a program. Then `src/checker.rt`.
#![tactic(auto)]

mod checked;
mod checker;
mod instrs;

pub use checked::Checked0;
pub use checker::{Check0Error, check0};
