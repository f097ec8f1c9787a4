// A node of an activation.

/// A node of an activation.
#[derive(Clone, Copy, Debug, PartialEq, Eq)]
pub struct NodeAt {
    pub activation: u32,
    pub node: u32,
}
