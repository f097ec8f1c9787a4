// The vertices of a block.

/// Which part of a node a vertex is: a call, an alloc and a fetch are cut into an ask and an answer.
#[derive(Clone, Copy, Debug, PartialEq, Eq)]
pub enum Half {
    Whole,
    Ask,
    Answer,
}

/// A vertex of a block.
#[derive(Clone, Copy, Debug, PartialEq, Eq)]
pub struct Vertex {
    pub node: u32,
    pub half: Half,
    /// What comes from outside the block gives its value.
    pub inlet: bool,
    /// Its effect is outside the block.
    pub outlet: bool,
}
