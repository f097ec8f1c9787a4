// What many steps of the machine answer.
use crate::RvStep;

/// What so many steps came to: how many of them were done, and the answer to the last one asked, which is `Done` where all were.
///
/// docs/MACHINE.md, "RV32IM".
#[derive(Clone, Copy, Debug, PartialEq, Eq)]
pub struct RvRun {
    pub done: u32,
    pub last: RvStep,
}
