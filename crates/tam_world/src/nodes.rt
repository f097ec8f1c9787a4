// Nodes by their numbers.
ghost use Rattle.std.specs.Prelude.{◌≡◌, ◌<◌, ◌≤◌, length, slice_get, OnSome, option_to_list};
ghost use Rattle.tam_graph.specs.Graphs.{code_of, kind_at, block_at, test_of, callee_of, chosen_branch, fires, is_inlet, owner_of};

use tam_graph::{Graph, Kind, Node};

/// The nodes of a code; none where the graph has no such code.
pub fn nodes_of(graph: &Graph, code: u32) -> &[Node]
    ensures value { result.now ≡ (code_of graph.now code).nodes }
    ensures few { length result.now ≤ 1024 }
    ensures there { 0 < length result.now → code < 256 }
{
    if code >= graph.codes() {
        return &[];
    }
    graph.code(code).nodes()
}

/// A node of a code.
pub fn node_at(graph: &Graph, code: u32, node: u32) -> Option<Node>
    ensures value { result ≡ slice_get (code_of graph.now code).nodes node }
    ensures in_range { OnSome result ((code < 256) × (node < 1024)) }
{
    let nodes = nodes_of(graph, code);
    if node as usize >= nodes.len() {
        return None;
    }
    Some(nodes[node as usize])
}

/// What a node does; a node that isn't there is taken for an inlet of a block that isn't there.
pub fn kind_at(graph: &Graph, code: u32, node: u32) -> Kind
    ensures value { result ≡ kind_at (code_of graph.now code) node }
{
    match node_at(graph, code, node) {
        Some(node) => node.kind,
        None => Kind::Enter { place: 0 },
    }
}

/// The block of a node.
pub fn block_at(graph: &Graph, code: u32, node: u32) -> u32
    ensures value { result ≡ block_at (code_of graph.now code) node }
{
    match node_at(graph, code, node) {
        Some(node) => node.block,
        None => 0,
    }
}

/// The node whose value decides a cond.
pub fn test_of(graph: &Graph, code: u32, cond: u32) -> u32
    ensures value { result ≡ test_of (code_of graph.now code) cond }
{
    match kind_at(graph, code, cond) {
        Kind::Cond { test, .. } => test,
        _ => 0,
    }
}

/// The code that a call begins.
pub fn callee_of(graph: &Graph, code: u32, call: u32) -> u32
    ensures value { result ≡ callee_of (code_of graph.now code) call }
{
    match kind_at(graph, code, call) {
        Kind::Call { callee } => callee,
        _ => 0,
    }
}

/// The branch that a word chooses.
pub fn chosen_branch(graph: &Graph, code: u32, cond: u32, word: u32) -> u32
    ensures value { result ≡ chosen_branch (code_of graph.now code) cond word }
{
    match kind_at(graph, code, cond) {
        Kind::Cond { yes, no, .. } => { if word == 0 { no } else { yes } }
        _ => 0,
    }
}

/// Whether such a node has a vertex that fires.
pub fn fires(kind: Kind) -> bool
    ensures value { result ≡ fires kind }
{
    match kind {
        Kind::Param { .. } | Kind::Ret { .. } | Kind::Merge { .. } | Kind::Enter { .. } => false,
        Kind::Const { .. } | Kind::Op { .. } | Kind::Seq { .. } => true,
        Kind::Call { .. } | Kind::Arg { .. } | Kind::Give { .. } | Kind::Alloc { .. } => true,
        Kind::Fetch { .. } | Kind::Store { .. } => true,
        Kind::Cond { .. } | Kind::Switch { .. } | Kind::Leave { .. } => true,
    }
}

/// Whether the value of such a node comes from outside its block.
pub fn is_inlet(kind: Kind) -> bool
    ensures value { result ≡ is_inlet kind }
{
    match kind {
        Kind::Param { .. } | Kind::Ret { .. } | Kind::Merge { .. } | Kind::Enter { .. } => true,
        Kind::Call { .. } | Kind::Alloc { .. } | Kind::Fetch { .. } => true,
        Kind::Const { .. } | Kind::Op { .. } | Kind::Seq { .. } => false,
        Kind::Arg { .. } | Kind::Give { .. } | Kind::Store { .. } => false,
        Kind::Cond { .. } | Kind::Switch { .. } | Kind::Leave { .. } => false,
    }
}

/// The cond that opens a block, if one does.
pub fn owner_of(graph: &Graph, code: u32, block: u32) -> Option<u32>
    ensures value { option_to_list result ≡ owner_of (code_of graph.now code) block }
{
    if code >= graph.codes() {
        return None;
    }
    let owners = graph.code(code).owners();
    if block as usize >= owners.len() {
        return None;
    }
    owners[block as usize]
}
