//! Runs of checked thread code: one event is the run of one thread to its stop or the delivery of one message.
//!
//! Over the crates of frames, messages and cells, and of thread code and its check. The program's runs of threads stand on this crate.
//! Read `specs/ThreadStates.antt` first: the state that is kept. Then `specs/ThreadEvents.antt`: what an event answers, and `src/machine0.rt`.
//! Which events take no memory is said in `specs/QuickEvents.antt`.
#![tactic(auto)]

mod advancing;
mod beginning;
mod code_table;
mod delivering;
mod machine0;
mod opening;
mod stop0;
mod thread_state;
mod threads;

pub use machine0::Machine0;
pub use stop0::{Stop0, Wild};
