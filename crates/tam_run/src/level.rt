// The levels at which a graph is run.

/// The level at which a graph is run: vertex by vertex of the graph itself, thread by thread of its thread code, or instruction by instruction of its
/// machine code.
#[derive(Clone, Copy, Debug, PartialEq, Eq)]
pub enum Level {
    Graph,
    Tl0,
    Rv32,
}
