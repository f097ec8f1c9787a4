// What a run has counted.

/// The events made so far, the activations begun and the cells in use.
#[derive(Clone, Copy, Debug, PartialEq, Eq)]
pub struct Counts {
    pub events: u32,
    pub activations: u32,
    pub cells: u32,
}
