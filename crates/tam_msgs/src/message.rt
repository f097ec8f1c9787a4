// Messages on their way.

/// A message on its way. A frame is the number of an activation, or that of the outside; an inlet is a number that the receiver gives
/// meaning to: a node at graph level, an inlet of its code below.
///
/// docs/FORMATS.md, "Messages".
#[derive(Clone, Copy, Debug, PartialEq, Eq)]
pub enum Message {
    /// A word for an inlet.
    Word {
        frame: u32,
        inlet: u32,
        word: u32,
    },
    /// The wish for an activation of a code; its number goes to the asker's inlet.
    Frame {
        code: u32,
        frame: u32,
        inlet: u32,
    },
    /// The wish for an array of so many cells; its number goes to the asker's inlet.
    Cells {
        len: u32,
        frame: u32,
        inlet: u32,
    },
    /// The wish for the word of a cell.
    Fetch {
        array: u32,
        index: u32,
        frame: u32,
        inlet: u32,
        site: u32,
    },
    /// A word for a cell.
    Store {
        array: u32,
        index: u32,
        word: u32,
        site: u32,
    },
}
