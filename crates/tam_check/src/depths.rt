// Which nodes have depths that don't fit, and which arrays `main` takes or gives.
ghost use Rattle.std.specs.Prelude.{◌≡◌, ◌==◌, suc};
ghost use Rattle.tam_word.specs.Lists.{all_of};
ghost use Rattle.tam_graph.specs.Graphs.{block_at, kind_at, owner_of, code_of, node_numbers, is_param, is_merge};
ghost use Rattle.tam_graph.specs.Accepted.{has_right_depth, is_main_type, all_depths, gives_depth, enters_depth, both_enter_depth};

use crate::code_tables::CodeTables;
use crate::graph_tables::GraphTables;
use crate::interface::Interface;
use crate::nodes::{block_at, callee_of, depth_at, kind_at, owner_of};
use tam_graph::{Code, Kind};

/// Whether a node and what it names have the depths that its line asks for.
///
/// docs/FORMATS.md, "Which graphs are accepted".
pub fn has_right_depth(graph: &GraphTables<'_>, tables: &CodeTables<'_>, x: u32, kind: Kind) -> bool
    ensures value { result ≡ has_right_depth graph.now.graph.now tables.now.code.now x kind }
{
    let code = tables.code;
    let depth = depth_at(code, x);
    match kind {
        Kind::Const { .. } | Kind::Call { .. } => depth == 0,
        Kind::Op { a, b, .. } => depth == 0 && depth_at(code, a) == 0 && depth_at(code, b) == 0,
        Kind::Seq { a, .. } => depth == depth_at(code, a),
        Kind::Arg { call, place, a } => params_agree(
            graph,
            callee_of(code, call),
            place,
            depth_at(code, a),
        ),
        Kind::Ret { call, place } => results_agree(graph, callee_of(code, call), place, depth),
        Kind::Alloc { len } => depth_at(code, len) == 0 && 0 < depth && depth < 4,
        Kind::Fetch { array, index } => depth_at(code, index) == 0
            && is_one_deeper(depth_at(code, array), depth),
        Kind::Store { array, index, a } => depth_at(code, index) == 0
            && is_one_deeper(depth_at(code, array), depth_at(code, a)),
        Kind::Cond { test, .. } => depth_at(code, test) == 0,
        Kind::Switch { cond, place, a } => ins_agree(
            tables,
            place,
            depth_at(code, a),
            kind_at(code, cond),
        ),
        Kind::Leave { place, a } => merges_agree(tables, x, place, depth_at(code, a)),
        Kind::Param { .. } | Kind::Give { .. } | Kind::Merge { .. } | Kind::Enter { .. } => true,
    }
}

/// Whether a param or a result is an array, as one of `main` can't be.
///
/// docs/FORMATS.md, "Which graphs are accepted".
pub fn is_main_type(code: &Code, x: u32, kind: Kind) -> bool
    ensures value { result ≡ is_main_type code.now x kind }
{
    match kind {
        Kind::Param { .. } => depth_at(code, x) != 0,
        Kind::Give { a, .. } => depth_at(code, a) != 0,
        _ => false,
    }
}

fn is_one_deeper(array: u8, element: u8) -> bool
    ensures value { result ≡ (array == suc element) }
{
    array > 0 && array - 1 == element
}

fn params_agree(graph: &GraphTables<'_>, callee: u32, place: u32, depth: u8) -> bool
    ensures value { result ≡ all_depths (code_of graph.now.graph.now callee) (is_param place) depth }
{
    callee >= graph.graph.codes() || graph.border(callee).params_agree(place, depth)
}

fn results_agree(graph: &GraphTables<'_>, callee: u32, place: u32, depth: u8) -> bool
    ensures value { result ≡ all_of (λ y. gives_depth (code_of graph.now.graph.now callee) place depth
        (kind_at (code_of graph.now.graph.now callee) y)) (node_numbers (code_of graph.now.graph.now callee)) }
{
    callee >= graph.graph.codes() || graph.border(callee).results_agree(place, depth)
}

// Whether both branches of a cond, of this kind, take the place with this depth.
fn ins_agree(tables: &CodeTables<'_>, place: u32, depth: u8, cond: Kind) -> bool
    ensures value { result ≡ both_enter_depth tables.now.code.now place depth cond }
{
    match cond {
        Kind::Cond { yes, no, .. } => branch_agrees(tables, place, depth, yes)
            && branch_agrees(tables, place, depth, no),
        _ => true,
    }
}

fn branch_agrees(tables: &CodeTables<'_>, place: u32, depth: u8, block: u32) -> bool
    ensures value { result ≡ enters_depth tables.now.code.now place depth block }
{
    tables.all_agree(Interface::Ins { block }, place, depth)
}

// Whether the merge of this place, of the cond that opens the node's block, has this depth.
fn merges_agree(tables: &CodeTables<'_>, x: u32, place: u32, depth: u8) -> bool
    ensures value { result ≡ all_of (λ d. all_depths tables.now.code.now (is_merge d place) depth)
        (owner_of tables.now.code.now (block_at tables.now.code.now x)) }
{
    let code = tables.code;
    match owner_of(code, block_at(code, x)) {
        Some(cond) => tables.all_agree(Interface::Merges { cond }, place, depth),
        None => true,
    }
}
