// What changes in a run.
ghost use Rattle.std.specs.Prelude.{◌≡◌, ◌++◌, map, filter, OnOk};
ghost use Rattle.tam_world.specs.Kept.{pairs_of};
ghost use Rattle.tam_graph.specs.Graphs.{Graph as GraphRecord};
ghost use Rattle.tam_world.specs.Worlds.{World as WorldRecord};
ghost use Rattle.tam_eval.specs.GraphRuns.{is_enabled};
ghost use Rattle.tam_eval.specs.Standing.{IsStanding};

use crate::left::Left;
use crate::standing::Standing;
use std::alloc::AllocError;
use std::collections::VecDeque;
use tam_msgs::Pending;
use tam_world::{NodeAt, World};

/// What changes in a run.
#[derive(Drop)]
pub(crate) struct Machine {
    pub(crate) world: World,
    /// The vertices that are ready, the first to become so first.
    pub(crate) ready: VecDeque<NodeAt>,
    pub(crate) pending: Pending,
    pub(crate) events: u32,
    /// How many vertices each activation has left, those that are ready among them.
    pub(crate) left: Left,
}

// Those of the nodes that may fire become ready.
#[inline(always)]
pub(crate) fn ready_among(
    standing: &Standing<'_>,
    ready: &mut VecDeque<NodeAt>,
    i: u32,
    nodes: &[u32],
) -> Result<(), AllocError>
    ensures ok { OnOk result ((g : GraphRecord) (w : WorldRecord) → IsStanding g w i standing.now
        → pairs_of ready.new.items ≡ pairs_of ready.old.items ++ map (λ x. (i, x)) (filter (is_enabled g w i) nodes.now)) }
{
    for node in nodes {
        if standing.is_enabled(*node) {
            ready.push_back(NodeAt {
                activation: i,
                node: *node,
            })?;
        }
    }
    Ok(())
}
