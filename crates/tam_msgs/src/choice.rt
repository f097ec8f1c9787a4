// What comes next in a run.

/// What comes next: a run of what is ready, the delivery of the pending message at a place, or nothing.
#[derive(Clone, Copy, Debug, PartialEq, Eq)]
pub enum Choice {
    Run,
    Deliver(u32),
    Quiet,
}
