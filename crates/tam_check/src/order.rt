// An order of the nodes of a code in which each stands behind its sources: where there is one, no node reaches itself.
ghost use Rattle.std.specs.Prelude.{ℕ, ◌≡◌, [], IsTrue, IfOk, length};
ghost use Rattle.tam_graph.specs.Accepted.{on_cycle};

use crate::nodes::node_count;
use crate::ranks::{rank_of, rises};
use crate::sources::Sources;
use std::alloc::{AllocError, Global};
use tam_graph::Code;

// To begin with a node, to look at each of its sources, and to leave it.
const STEPS: u32 = 5;

/// Whether an order was found. Where no node reaches itself there is one, and it is found in as many steps as there are nodes and sources.
pub fn has_order(alloc: Global, code: &Code) -> Result<bool, AllocError>
    ensures no_cycle { IfOk result (λ found. IsTrue found → (b : ℕ) → on_cycle code.now b ≡ []) }
{
    let ranks = ranks(alloc, code)?;
    Ok(rises(code, &ranks))
}

// A rank for each node: the step in which it was left, after its sources. It is a proposal, which `rises` tests.
fn ranks(alloc: Global, code: &Code) -> Result<Vec<u32>, AllocError> {
    let count = node_count(code);
    let mut ranks = vec![in alloc; 0; count as usize]?;
    let mut looked = vec![in alloc; 0; count as usize]?;
    let mut waiting = Vec::new(alloc);
    let mut start = 0;
    for step in 0..STEPS * count {
        if let Some(x) = waiting.pop() {
            let seen = rank_of(&looked, x);
            if seen >= 3 {
                put(&mut ranks, x, step);
                continue;
            }
            put(&mut looked, x, seen + 1);
            waiting.push(x)?;
            if let Some(a) = Sources::of(code, x).get(seen) {
                if rank_of(&looked, a) == 0 {
                    waiting.push(a)?;
                }
            }
        } else if start < count {
            if rank_of(&looked, start) == 0 {
                waiting.push(start)?;
            }
            start += 1;
        }
    }
    Ok(ranks)
}

fn put(numbers: &mut [u32], x: u32, number: u32)
    ensures len { length numbers.new ≡ length numbers.old }
{
    if let Some(place) = numbers.get_mut(x as usize) {
        *place = number;
    }
}
