// What a node waits for before it may fire.
ghost use Rattle.std.specs.Prelude.{◌≡◌};
ghost use Rattle.tam_graph.specs.Graphs.{code_of};
ghost use Rattle.tam_world.specs.Needs.{IsNeedOf};

use crate::nodes::test_of;
use tam_graph::{Graph, Kind};

/// What a node waits for before it may fire.
#[derive(Clone, Copy, Debug, PartialEq, Eq)]
pub enum Need {
    /// That its block is entered and its operands have words. Where they are fewer than three, the last stands for the others too.
    Words {
        block: u32,
        first: u32,
        second: u32,
        third: u32,
    },
    /// That its block is entered.
    Block {
        block: u32,
    },
    /// It never fires.
    Never,
}

impl Need {
    /// What a node of this kind in this block waits for.
    pub(crate) fn of(graph: &Graph, code: u32, block: u32, kind: Kind) -> Need
        ensures value { IsNeedOf (code_of graph.now code) block kind result }
    {
        match kind {
            Kind::Param { .. } | Kind::Ret { .. } | Kind::Merge { .. } | Kind::Enter { .. } => {
                Need::Never
            }
            Kind::Const { .. } | Kind::Call { .. } => Need::Block { block },
            Kind::Op { a, b, .. } | Kind::Seq { a, b } => Need::words(block, a, b, b),
            Kind::Arg { call, a, .. } => Need::words(block, a, call, call),
            Kind::Give { a, .. } | Kind::Leave { a, .. } => Need::words(block, a, a, a),
            Kind::Alloc { len } => Need::words(block, len, len, len),
            Kind::Fetch { array, index } => Need::words(block, array, index, index),
            Kind::Store { array, index, a } => Need::words(block, array, index, a),
            Kind::Cond { test, .. } => Need::words(block, test, test, test),
            Kind::Switch { cond, a, .. } => { Need::words(block, test_of(graph, code, cond), a, a) }
        }
    }

    // Its block and three words.
    fn words(block: u32, first: u32, second: u32, third: u32) -> Need
        ensures value { result ≡ Need.Words block first second third }
    {
        Need::Words {
            block,
            first,
            second,
            third,
        }
    }
}
