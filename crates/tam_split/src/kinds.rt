// What the nodes of a block are to it, and what they take.
ghost use Rattle.std.specs.Prelude.{ℕ, ◌≡◌};
ghost use Rattle.tam_word.specs.Lists.{has};
ghost use Rattle.tam_graph.specs.Graphs.{kind_at, test_of, operands_of, is_split, is_inlet, is_outlet};
ghost use Rattle.tam_split.specs.Takers.{or_nothing};

use tam_graph::{Code, Kind};

// Whether an ask and an answer stand for such a node.
pub(crate) fn is_split(kind: Kind) -> bool
    ensures value { result ≡ is_split kind }
{
    matches!(
        kind,
        Kind::Call { .. } | Kind::Alloc { .. } | Kind::Fetch { .. }
    )
}

// Whether what comes from outside the block gives the value of such a node.
pub(crate) fn is_inlet(kind: Kind) -> bool
    ensures value { result ≡ is_inlet kind }
{
    match kind {
        Kind::Param { .. } | Kind::Ret { .. } | Kind::Merge { .. } | Kind::Enter { .. } => true,
        _ => is_split(kind),
    }
}

// Whether the effect of such a node is outside the block.
pub(crate) fn is_outlet(kind: Kind) -> bool
    ensures value { result ≡ is_outlet kind }
{
    match kind {
        Kind::Arg { .. } | Kind::Give { .. } | Kind::Store { .. } => true,
        Kind::Cond { .. } | Kind::Switch { .. } | Kind::Leave { .. } => true,
        _ => is_split(kind),
    }
}

// What a node does; a node that isn't there is taken for an inlet of a block that isn't there.
pub(crate) fn kind_at(code: &Code, node: u32) -> Kind
    ensures value { result ≡ kind_at code.now node }
{
    let nodes = code.nodes();
    if node as usize >= nodes.len() {
        return Kind::Enter { place: 0 };
    }
    nodes[node as usize].kind
}

// The node whose value decides a cond.
fn test_of(code: &Code, cond: u32) -> u32
    ensures value { result ≡ test_of code.now cond }
{
    match kind_at(code, cond) {
        Kind::Cond { test, .. } => test,
        _ => 0,
    }
}

// The nodes whose values such a node takes, the last named again where there are fewer than three.
pub(crate) fn operands_of(code: &Code, kind: Kind) -> Option<[u32; 3]>
    ensures same { (x : ℕ) → has (or_nothing result) x ≡ has (operands_of code.now kind) x }
{
    match kind {
        Kind::Op { a, b, .. } => Some([a, b, b]),
        Kind::Seq { a, b } => Some([a, b, b]),
        Kind::Arg { call, a, .. } => Some([a, call, call]),
        Kind::Give { a, .. } => Some([a, a, a]),
        Kind::Alloc { len } => Some([len, len, len]),
        Kind::Fetch { array, index } => Some([array, index, index]),
        Kind::Store { array, index, a } => Some([array, index, a]),
        Kind::Cond { test, .. } => Some([test, test, test]),
        Kind::Switch { cond, a, .. } => Some([test_of(code, cond), a, a]),
        Kind::Leave { a, .. } => Some([a, a, a]),
        Kind::Param { .. } | Kind::Const { .. } | Kind::Call { .. } => None,
        Kind::Ret { .. } | Kind::Merge { .. } | Kind::Enter { .. } => None,
    }
}
