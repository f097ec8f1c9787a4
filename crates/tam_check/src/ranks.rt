// Ranks that rise from the sources of a node to it: where there are such, no node reaches itself.
ghost use Rattle.std.specs.Prelude.{ℕ, ◌≡◌, ◌<◌, true, length, nat_lt, IfOk, [], IsTrue};
ghost use Rattle.tam_word.specs.Lists.{all_of};
ghost use Rattle.tam_graph.specs.Accepted.{on_cycle};
ghost use Rattle.tam_check.specs.Sources.{rank_of, rises_to, rises, and_more};

use crate::nodes::node_count;
use crate::sources::Sources;
use tam_graph::Code;

/// Whether the rank of each node is above those of its sources.
pub fn rises(code: &Code, ranks: &[u32]) -> bool
    ensures value { result ≡ rises code.now ranks.now }

    // Then no block has a node that reaches itself.
    ensures no_cycle { IsTrue result → (b : ℕ) → on_cycle code.now b ≡ [] }
{
    for x in 0..node_count(code) {
        if !rises_to(code, ranks, x) {
            return false;
        }
    }
    true
}

fn rises_to(code: &Code, ranks: &[u32], x: u32) -> bool
    ensures value { result ≡ rises_to code.now ranks.now x }
{
    let rank = rank_of(ranks, x);
    let Sources {
        first,
        second,
        third,
    } = Sources::of(code, x);
    is_below(ranks, first, rank) && is_below(ranks, second, rank) && is_below(ranks, third, rank)
}

// Whether the node, where there is one, has a lower rank than this.
fn is_below(ranks: &[u32], source: Option<u32>, rank: u32) -> bool
    ensures value { result ≡ all_of (λ a. nat_lt (rank_of ranks.now a) rank) (and_more source []) }
{
    match source {
        Some(a) => rank_of(ranks, a) < rank,
        None => true,
    }
}

/// The rank of a node, 0 where it has none.
pub fn rank_of(ranks: &[u32], x: u32) -> u32
    ensures value { result ≡ rank_of ranks.now x }
{
    match ranks.get(x as usize) {
        Some(rank) => *rank,
        None => 0,
    }
}
