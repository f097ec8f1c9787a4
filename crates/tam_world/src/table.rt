// Which vertices an event may make ready, by code.
ghost use Rattle.std.specs.Prelude.{ℕ, ◌≡◌, ◌==◌, ◌&&◌, ◌≤◌, ◌++◌, [], ◌∷◌, Some, filter, length, IfOk, OnOk};
ghost use Rattle.tam_word.specs.Lists.{has, where_so};
ghost use Rattle.tam_graph.specs.Graphs.{code_of, kind_at, operands_of, fires, is_inlet};
ghost use Rattle.tam_world.specs.Takers.{is_none};
ghost use Rattle.tam_world.specs.Sought.{is_keyed};
ghost use Rattle.tam_world.specs.Tables.{listed, IsTableOf};

use crate::Need;
use crate::finding::enter_key;
use crate::nodes::{fires, is_inlet, kind_at, nodes_of, test_of};
use std::alloc::{AllocError, Global};
use tam_graph::{Graph, Kind, Node};

/// Which vertices of a code an event may make ready, each list rising.
#[derive(Drop)]
pub(crate) struct Table {
    /// For each node those that fire and take its word.
    pub(crate) takers: Vec<Vec<u32>>,
    /// For each block its nodes that fire.
    pub(crate) firers: Vec<Vec<u32>>,
    /// For each block its inlets, calls, allocs and fetches among them.
    pub(crate) block_inlets: Vec<Vec<u32>>,
    /// For each number those inlets that are kept under it: a param's place, a ret's call, a merge's cond, an `in`'s block and place.
    pub(crate) inlets: Vec<Vec<u32>>,
    /// Those that may fire as soon as an activation begins.
    pub(crate) starters: Vec<u32>,
    /// For each node what it waits for before it may fire.
    pub(crate) needs: Vec<Need>,
}

impl Table {
    ghost use Rattle.tam_world.specs.Tables.{IsTableOf};

    /// The table of a code.
    pub(crate) fn of(alloc: Global, graph: &Graph, code: u32) -> Result<Table, AllocError>
        ensures value { IfOk result (λ table. IsTableOf (code_of graph.now code) (Some table)) }
    {
        let nodes = nodes_of(graph, code);
        let mut takers = Vec::new(alloc);
        let mut firers = Vec::new(alloc);
        let mut inlets = Vec::new(alloc);
        let mut block_inlets = Vec::new(alloc);
        let mut needs = Vec::with_capacity(alloc, nodes.len())?;
        for (x, node) in nodes.iter().enumerate() {
            add_node(
                alloc,
                &mut takers,
                &mut firers,
                graph,
                code,
                *node,
                x as u32,
            )?;
            add_inlet(alloc, &mut inlets, node.block, node.kind, x as u32)?;
            add_block_inlet(alloc, &mut block_inlets, node.block, node.kind, x as u32)?;
            needs.push(Need::of(graph, code, node.block, node.kind))?;
        }
        let starters = starters_among(alloc, graph, code, list_at(&firers, 0))?;
        Ok(Table {
            takers,
            firers,
            block_inlets,
            inlets,
            starters,
            needs,
        })
    }
}

// The list at a place.
pub(crate) fn list_at(lists: &[Vec<u32>], place: u32) -> &[u32]
    ensures value { result.now ≡ listed lists.now place }
{
    if place as usize >= lists.len() {
        return &[];
    }
    &lists[place as usize]
}

// Adds a node to the list at a place.
fn add(alloc: Global, lists: &mut Vec<Vec<u32>>, place: u32, node: u32) -> Result<(), AllocError>
    ensures ok { OnOk result ((z : ℕ) → listed lists.new.items z ≡ listed lists.old.items z ++ where_so (place == z) node) }
{
    while lists.len() <= place as usize {
        lists.push(Vec::new(alloc))?;
    }
    let list = &mut lists[place as usize];
    list.push(node)?;
    Ok(())
}

// Adds a node to the lists at two places, once where they are one.
fn add_two(
    alloc: Global,
    lists: &mut Vec<Vec<u32>>,
    a: u32,
    b: u32,
    node: u32,
) -> Result<(), AllocError>
    ensures ok { OnOk result ((z : ℕ) → listed lists.new.items z ≡ listed lists.old.items z ++ where_so (has (a ∷ b ∷ []) z) node) }
{
    add(alloc, lists, a, node)?;
    if b != a {
        add(alloc, lists, b, node)?;
    }
    Ok(())
}

// Adds a node to the lists at three places, once where some are one.
fn add_three(
    alloc: Global,
    lists: &mut Vec<Vec<u32>>,
    a: u32,
    b: u32,
    c: u32,
    node: u32,
) -> Result<(), AllocError>
    ensures ok { OnOk result ((z : ℕ) → listed lists.new.items z ≡ listed lists.old.items z ++ where_so (has (a ∷ b ∷ c ∷ []) z) node) }
{
    add_two(alloc, lists, a, b, node)?;
    if c != a && c != b {
        add(alloc, lists, c, node)?;
    }
    Ok(())
}

// Adds a node that fires to the lists of its operands.
fn add_takers(
    alloc: Global,
    lists: &mut Vec<Vec<u32>>,
    graph: &Graph,
    code: u32,
    kind: Kind,
    node: u32,
) -> Result<(), AllocError>
    ensures ok { OnOk result ((z : ℕ) → listed lists.new.items z ≡ listed lists.old.items z ++ where_so (has (operands_of (code_of graph.now code)
        kind) z) node) }
{
    match kind {
        Kind::Op { a, b, .. } | Kind::Seq { a, b } => add_two(alloc, lists, a, b, node),
        Kind::Arg { call, a, .. } => add_two(alloc, lists, a, call, node),
        Kind::Give { a, .. } | Kind::Leave { a, .. } => add(alloc, lists, a, node),
        Kind::Alloc { len } => add(alloc, lists, len, node),
        Kind::Fetch { array, index } => add_two(alloc, lists, array, index, node),
        Kind::Store { array, index, a } => add_three(alloc, lists, array, index, a, node),
        Kind::Cond { test, .. } => add(alloc, lists, test, node),
        Kind::Switch { cond, a, .. } => {
            add_two(alloc, lists, test_of(graph, code, cond), a, node)
        }
        _ => Ok(()),
    }
}

// Adds a node that fires to the lists of its operands, and to that of its block.
fn add_node(
    alloc: Global,
    takers: &mut Vec<Vec<u32>>,
    firers: &mut Vec<Vec<u32>>,
    graph: &Graph,
    code: u32,
    node: Node,
    x: u32,
) -> Result<(), AllocError>
    ensures takers { OnOk result ((z : ℕ) → listed takers.new.items z ≡ listed takers.old.items z ++ where_so (fires node.kind && has (operands_of
        (code_of graph.now code) node.kind) z) x) }
    ensures firers { OnOk result ((z : ℕ) → listed firers.new.items z ≡ listed firers.old.items z ++ where_so ((node.block == z) && fires node.kind) x) }
{
    if !fires(node.kind) {
        return Ok(());
    }
    add_takers(alloc, takers, graph, code, node.kind, x)?;
    add(alloc, firers, node.block, x)
}

// Adds an inlet that is looked for by what it does to the list of its number.
fn add_inlet(
    alloc: Global,
    inlets: &mut Vec<Vec<u32>>,
    block: u32,
    kind: Kind,
    x: u32,
) -> Result<(), AllocError>
    ensures ok { OnOk result ((z : ℕ) → listed inlets.new.items z ≡ listed inlets.old.items z ++ where_so (is_keyed z block kind) x) }
{
    match kind {
        Kind::Param { place } => add(alloc, inlets, place, x),
        Kind::Ret { call, .. } => add(alloc, inlets, call, x),
        Kind::Merge { cond, .. } => add(alloc, inlets, cond, x),
        Kind::Enter { place } => add(alloc, inlets, enter_key(block, place), x),
        _ => Ok(()),
    }
}

// Adds a node to the list of its block, where it is an inlet.
fn add_block_inlet(
    alloc: Global,
    lists: &mut Vec<Vec<u32>>,
    block: u32,
    kind: Kind,
    x: u32,
) -> Result<(), AllocError>
    ensures ok { OnOk result ((z : ℕ) → listed lists.new.items z ≡ listed lists.old.items z ++ where_so ((block == z) && is_inlet kind) x) }
{
    if !is_inlet(kind) {
        return Ok(());
    }
    add(alloc, lists, block, x)
}

// Whether a node has no operand.
fn has_no_operand(graph: &Graph, code: u32, kind: Kind) -> bool
    ensures value { result ≡ is_none (operands_of (code_of graph.now code) kind) }
{
    match kind {
        Kind::Param { .. } | Kind::Ret { .. } | Kind::Merge { .. } | Kind::Enter { .. } => true,
        Kind::Const { .. } | Kind::Call { .. } => true,
        _ => false,
    }
}

// Those of the nodes that have no operand.
fn starters_among(
    alloc: Global,
    graph: &Graph,
    code: u32,
    nodes: &[u32],
) -> Result<Vec<u32>, AllocError>
    ensures value { IfOk result (λ starters. starters.items ≡ filter (λ x. is_none (operands_of (code_of graph.now code) (kind_at
        (code_of graph.now code) x))) nodes.now) }
{
    let mut starters = Vec::new(alloc);
    for node in nodes {
        let kind = kind_at(graph, code, *node);
        if has_no_operand(graph, code, kind) {
            starters.push(*node)?;
        }
    }
    Ok(starters)
}
