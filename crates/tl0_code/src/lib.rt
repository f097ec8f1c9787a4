//! The code of threads: what an instruction does, how a run of threads goes, which code is accepted, and its text.
//!
//! Over the crates of words, messages, cells and frames. Its text's reader, its checker, its machine and the code of a graph stand on this crate.
//! Read `specs/ThreadCode.antt`, then `specs/Machines.antt` and `specs/ThreadRuns.antt`: the step. `specs/CodeRules.antt` has the checker's rules,
//! `specs/CodeTexts.antt` the text.
#![tactic(auto)]

mod bad_cause;
mod code;
mod code_line;
mod inlet;
mod instr;
mod program;
mod thread;

pub use bad_cause::BadCause;
pub use code::Code0;
pub use code_line::CodeLine;
pub use inlet::Inlet;
pub use instr::Instr;
pub use program::Program0;
pub use thread::Thread;
