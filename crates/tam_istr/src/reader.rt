// Who waits for a cell's word.

/// Who waits for a cell's word: an inlet of a frame.
#[derive(Clone, Copy, Debug, PartialEq, Eq)]
pub struct Reader {
    pub frame: u32,
    pub inlet: u32,
}
