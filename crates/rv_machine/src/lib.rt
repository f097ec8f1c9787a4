//! A machine of RV32IM over an image: one step is one row of the standard's tables.
//!
//! Over the crates of words, of the edge, of instructions and of images. The host of machine code stands on this crate.
//! Read `src/rv.rt` first, then `specs/Answers.antt` (what a step answers and leaves) and the definition of a step, `Execution` of `rv_inst`.
//! Of use by itself: it carries out any image, and tells a call of the host and each trap with its cause.
#![tactic(auto)]

mod arithmetic;
mod execute;
mod forms;
mod kept_inst;
mod kept_instructions;
mod kept_reg;
mod memory_access;
mod next;
mod operation;
mod rv;
mod rv_run;
mod rv_step;
mod word_address;

pub use rv::Rv;
pub use rv_inst::TrapCause;
pub use rv_run::RvRun;
pub use rv_step::RvStep;
