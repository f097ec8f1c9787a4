//! The host of the machine: one poll is one event, with all that the machine calls the host for before it.
//!
//! Over the machine of RV32IM, over the crates of messages and cells, and over the definition of the host. The program's runs of images stand on this crate.
//! Read `specs/HostEvents.antt` first: what a poll answers. Then `src/host.rt`, and `src/calls.rt` for the way to a poll.
#![tactic(auto)]

mod advancing;
mod calls;
mod delivering;
mod host;
mod host_state;
mod live_numbers;
mod opening;
mod stop_rv;
#[cfg(test)]
mod tests;

pub use host::Host;
pub use stop_rv::{HostWild, StopRv};
