//! The law on walks, as the contract of a function with an empty body.

ghost use Rattle.tam_graph.specs.Edges.{WalksReach};

/// Of any edges a number reaches another exactly where there is a walk of edges from the one to the other.
pub fn law_walks()
    ensures reach { WalksReach }
{}
