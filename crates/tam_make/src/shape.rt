// What is made.

/// A large input.
#[derive(Clone, Copy, Debug, PartialEq, Eq)]
pub enum Shape {
    /// A chain of codes, each of which adds its number a hundred times and calls the next one.
    Ladder,
    /// A square of cells, each of which waits for the one above it and the one before it.
    Wave,
}
