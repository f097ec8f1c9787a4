// Which classes come before a class.
ghost use Rattle.std.specs.Prelude.{◌≡◌};
ghost use Rattle.tam_split.specs.Partitions.{class_of, directly_before};

use crate::lists::has;
use tam_split::Parts;

// The number of the class in which a place stands.
fn class_of(parts: &Parts, place: u32) -> u32
    ensures value { result ≡ class_of parts.now place }
{
    for k in 0..parts.classes() {
        if has(parts.class(k), place) {
            return k;
        }
    }
    parts.classes()
}

// Whether an edge runs from one class to another.
pub(crate) fn is_directly_before(
    edges: &[(u32, u32)],
    parts: &Parts,
    first: u32,
    second: u32,
) -> bool
    ensures value { result ≡ directly_before edges.now parts.now first second }
{
    for edge in edges {
        let from = class_of(parts, edge.0);
        let to = class_of(parts, edge.1);
        if from != to && from == first && to == second {
            return true;
        }
    }
    false
}
