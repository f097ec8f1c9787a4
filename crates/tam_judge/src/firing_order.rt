// The order in which the places of a class fire.
ghost use Rattle.std.specs.Prelude.{◌≡◌, ◌++◌, IfOk, option_to_list};
ghost use Rattle.tam_word.specs.Lists.{first_of};
ghost use Rattle.tam_split.specs.GraphPartitions.{waits_for_none, firing_order};

use crate::lists::{has, without};
use std::alloc::Global;
use tam_edge::NoMemory;

// Whether no place that is left has an edge to this one.
fn waits_for_none(edges: &[(u32, u32)], left: &[u32], place: u32) -> bool
    ensures value { result ≡ waits_for_none edges.now left.now place }
{
    for edge in edges {
        if edge.1 == place && has(left, edge.0) {
            return false;
        }
    }
    true
}

// The first of the places left that waits for none of them.
fn first_free(edges: &[(u32, u32)], left: &[u32]) -> Option<u32>
    ensures value { option_to_list result ≡ first_of (waits_for_none edges.now left.now) left.now }
{
    for place in left {
        if waits_for_none(edges, left, *place) {
            return Some(*place);
        }
    }
    None
}

// The places of a class in the order in which they fire.
pub(crate) fn firing_order(
    alloc: Global,
    edges: &[(u32, u32)],
    class: &[u32],
) -> Result<Vec<u32>, NoMemory>
    ensures value { IfOk result (λ order. order.items ≡ firing_order edges.now class.now) }
{
    let mut left = Vec::from_slice(alloc, class)?;
    let mut order = Vec::new(alloc);
    for _ in 0..class.len() {
        let Some(place) = first_free(edges, &left) else {
            return with_rest(order, &left);
        };
        order.push(place)?;
        left = without(alloc, &left, place)?;
    }
    with_rest(order, &left)
}

// The order with the places that are left behind it.
fn with_rest(mut order: Vec<u32>, left: &[u32]) -> Result<Vec<u32>, NoMemory>
    ensures value { IfOk result (λ whole. whole.items ≡ order.items ++ left.now) }
{
    order.extend_from_slice(left)?;
    Ok(order)
}
