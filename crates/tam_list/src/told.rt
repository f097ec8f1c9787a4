// What is told of a block.

/// The sets of its vertices, or its classes.
#[derive(Clone, Copy, Debug, PartialEq, Eq)]
pub enum Told {
    Sets,
    Classes,
}
