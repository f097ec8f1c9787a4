// What one event did.

/// What one event did: ran what was ready, delivered a message, or delivered a result to the outside; or nothing was left to do.
#[derive(Clone, Copy, Debug, PartialEq, Eq)]
pub enum Step {
    Ran,
    Delivered,
    Printed { place: u32, word: u32 },
    Quiet,
}
