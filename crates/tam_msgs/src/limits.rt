// What bounds a run.

/// What bounds a run: its events, its activations and the cells of its arrays.
///
/// docs/FORMATS.md, "Limits".
#[derive(Clone, Copy, Debug, PartialEq, Eq)]
pub struct Limits {
    pub budget: u32,
    /// 1 to 16,384.
    pub frames: u32,
    /// At most 4,194,304.
    pub cells: u32,
}
