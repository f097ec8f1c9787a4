// Why a graph is refused.

/// Which rule a graph breaks.
///
/// docs/FORMATS.md, "Which graphs are accepted".
#[derive(Clone, Copy, Debug, PartialEq, Eq)]
pub enum CheckCause {
    /// No code is named `main`.
    NoMain,
    /// A `param` or a `result` in a branch, an `in` or an `out` outside one, or a line that names a node of another block.
    WrongBlock,
    /// An earlier node of the same interface has the same place.
    PlaceTwice,
    /// The place isn't below the size of its interface.
    PlaceRange,
    /// At a `call` or a `cond`: the other side of the interface has a place that this side lacks.
    PlaceMissing,
    DepthMismatch,
    /// `main` takes or gives an array.
    MainType,
    /// At the least node of a block that reaches itself.
    Cycle,
}
