// Places in a graph.

/// What a fault of a graph is told of: the whole file, a code, or a node of a code, by their numbers.
#[derive(Clone, Copy, Debug, PartialEq, Eq)]
pub enum Place {
    File,
    Code { code: u32 },
    Node { code: u32, node: u32 },
}
