// Which nodes stand in a block where they can't.
ghost use Rattle.std.specs.Prelude.{◌≡◌, ◌==◌, not};
ghost use Rattle.tam_word.specs.Lists.{any_of};
ghost use Rattle.tam_graph.specs.Graphs.{block_at, kind_at};
ghost use Rattle.tam_graph.specs.Written.{named_by};
ghost use Rattle.tam_graph.specs.Accepted.{in_wrong_block, is_wrong_block};

use crate::nodes::{block_at, kind_at};
use tam_graph::{Code, Kind};

/// Whether a node stands in a wrong block, or its line names a node of another block.
///
/// docs/FORMATS.md, "Which graphs are accepted".
pub fn is_wrong_block(code: &Code, x: u32) -> bool
    ensures value { result ≡ is_wrong_block code.now x }
{
    let block = block_at(code, x);
    let kind = kind_at(code, x);
    in_wrong_block(block, kind) || names_elsewhere(code, block, kind)
}

fn in_wrong_block(block: u32, kind: Kind) -> bool
    ensures value { result ≡ in_wrong_block block kind }
{
    match kind {
        Kind::Param { .. } | Kind::Give { .. } => block != 0,
        Kind::Enter { .. } | Kind::Leave { .. } => block == 0,
        _ => false,
    }
}

// Whether a line of this block names a node of another.
fn names_elsewhere(code: &Code, block: u32, kind: Kind) -> bool
    ensures value { result ≡ any_of (λ y. not (block_at code.now y == block)) (named_by kind) }
{
    let elsewhere = |y: u32| block_at(code, y) != block;
    match kind {
        Kind::Op { a, b, .. } | Kind::Seq { a, b } => elsewhere(a) || elsewhere(b),
        Kind::Arg { call, a, .. } => elsewhere(call) || elsewhere(a),
        Kind::Ret { call, .. } => elsewhere(call),
        Kind::Give { a, .. } | Kind::Leave { a, .. } => elsewhere(a),
        Kind::Alloc { len } => elsewhere(len),
        Kind::Fetch { array, index } => elsewhere(array) || elsewhere(index),
        Kind::Store { array, index, a } => elsewhere(array) || elsewhere(index) || elsewhere(a),
        Kind::Cond { test, .. } => elsewhere(test),
        Kind::Switch { cond, a, .. } => elsewhere(cond) || elsewhere(a),
        Kind::Merge { cond, .. } => elsewhere(cond),
        Kind::Param { .. } | Kind::Const { .. } | Kind::Call { .. } | Kind::Enter { .. } => false,
    }
}
