// Nodes by what they do.
ghost use Rattle.std.specs.Prelude.{◌≡◌, slice_get, option_to_list};
ghost use Rattle.tam_graph.specs.Graphs.{code_of, or_block, or_kind, owner_of, node_in, is_enter};
ghost use Rattle.tam_world.specs.Worlds.{merges_of};
ghost use Rattle.tam_world.specs.Sought.{is_sought, sought_in, enter_key, key_of};

use crate::nodes::{nodes_of, owner_of};
use crate::program::Program;
use tam_graph::{Kind, Node};

/// What node is looked for, by what it does.
#[derive(Clone, Copy)]
pub enum Sought {
    Param { place: u32 },
    Ret { call: u32, place: u32 },
    Merge { cond: u32, place: u32 },
    Enter { block: u32, place: u32 },
}

// Whether the node is the one that is looked for.
fn is_sought(sought: Sought, block: u32, kind: Kind) -> bool
    ensures value { result ≡ is_sought sought block kind }
{
    match (sought, kind) {
        (Sought::Param { place }, Kind::Param { place: k }) => k == place,
        (Sought::Ret { call, place }, Kind::Ret { call: f, place: k }) => f == call && k == place,
        (Sought::Merge { cond, place }, Kind::Merge { cond: d, place: k }) => d == cond
            && k == place,
        (Sought::Enter { block: b, place }, Kind::Enter { place: k }) => block == b && k == place,
        _ => false,
    }
}

// The number under which it is kept.
fn key_of(sought: Sought) -> u32
    ensures value { result ≡ key_of sought }
{
    match sought {
        Sought::Param { place } => place,
        Sought::Ret { call, .. } => call,
        Sought::Merge { cond, .. } => cond,
        Sought::Enter { block, place } => enter_key(block, place),
    }
}

// The number under which an `in` is kept.
pub(crate) fn enter_key(block: u32, place: u32) -> u32
    ensures value { result ≡ enter_key block place }
{
    block ^ (place % 64 * 8)
}

/// The first node that is what is looked for.
#[inline(always)]
pub fn find_node(program: &Program<'_>, code: u32, sought: Sought) -> Option<u32>
    ensures value { option_to_list result ≡ sought_in (code_of program.now code) sought }
{
    let nodes = nodes_of(program.graph(), code);
    let inlets = program.inlets(code, key_of(sought));
    for x in inlets {
        if is_sought_at(sought, nodes, *x) {
            return Some(*x);
        }
    }
    None
}

// Whether one of a code's nodes is the one that is looked for.
fn is_sought_at(sought: Sought, nodes: &[Node], x: u32) -> bool
    ensures value { result ≡ is_sought sought (or_block (slice_get nodes.now x)) (or_kind (slice_get nodes.now x)) }
{
    match nodes.get(x as usize) {
        Some(node) => is_sought(sought, node.block, node.kind),
        None => is_sought(sought, 0, Kind::Enter { place: 0 }),
    }
}

/// The `in` of a place in a block.
pub fn find_enter(program: &Program<'_>, code: u32, block: u32, place: u32) -> Option<u32>
    ensures value { option_to_list result ≡ node_in (code_of program.now code) block (is_enter place) }
{
    find_node(program, code, Sought::Enter { block, place })
}

/// The merge of a place of the cond that opens a block.
pub fn find_merge(program: &Program<'_>, code: u32, block: u32, place: u32) -> Option<u32>
    ensures value { option_to_list result ≡ merges_of (code_of program.now code) place (owner_of (code_of program.now code) block) }
{
    match owner_of(program.graph(), code, block) {
        Some(cond) => find_node(program, code, Sought::Merge { cond, place }),
        None => None,
    }
}
