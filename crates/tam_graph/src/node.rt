// The nodes of a code.
use crate::{Kind, Name};

/// A node of a code.
#[derive(Clone, Copy, Debug, PartialEq, Eq)]
pub struct Node {
    /// The name that its line begins with, where it begins with one.
    pub name: Option<Name>,
    /// The depth of its value: 0 for a word, above it for an array of values that are one less deep. 0 where its line has no suffix.
    pub depth: u8,
    /// The number of the block in which it stands.
    pub block: u32,
    pub kind: Kind,
}
