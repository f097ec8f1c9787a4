// The tables of the nodes of a code.
ghost use Rattle.std.specs.Prelude.{ℕ, suc, ◌≡◌, ◌<◌, ◌≤◌, ◌++◌, true, map, length, IfOk, OnOk};
ghost use Rattle.tam_word.specs.Lists.{below, has};
ghost use Rattle.tam_graph.specs.Graphs.{code_of, has_value, results_of};
ghost use Rattle.tl0_keep.specs.Compiled.{slot_of, place_in, inlets_at, inlet_nodes, choosing_nodes, is_choosing};
ghost use Rattle.tam_world.specs.Sought.{sought_in};
ghost use Rattle.tl0_emit.specs.Tables.{rets_of};

use std::alloc::Global;
use tam_edge::NoMemory;
use tam_graph::{Code, Kind};
use tam_world::{Program, Sought, find_node};

// The slot of each node, and behind them how many slots there are.
pub(crate) fn slots_of(alloc: Global, code: &Code) -> Result<Vec<u32>, NoMemory>
    ensures value { IfOk result (λ slots. slots.items ≡ map (slot_of code.now) (below (suc (length code.now.nodes)))) }
{
    let mut slots = Vec::new(alloc);
    let mut next = 2;
    for node in code.nodes() {
        slots.push(next)?;
        if has_value(node.kind) {
            next += 1;
        }
    }
    slots.push(next)?;
    Ok(slots)
}

// Whether such a node has a value.
fn has_value(kind: Kind) -> bool
    ensures value { result ≡ has_value kind }
{
    match kind {
        Kind::Param { .. } | Kind::Ret { .. } | Kind::Merge { .. } | Kind::Enter { .. } => true,
        Kind::Const { .. } | Kind::Op { .. } | Kind::Seq { .. } => true,
        Kind::Call { .. } | Kind::Alloc { .. } | Kind::Fetch { .. } => true,
        Kind::Arg { .. } | Kind::Give { .. } | Kind::Store { .. } => false,
        Kind::Cond { .. } | Kind::Switch { .. } | Kind::Leave { .. } => false,
    }
}

// For each of so many numbers its first place in a list, or the length where it isn't in it.
pub(crate) fn numbered(alloc: Global, listed: &[u32], count: usize) -> Result<Vec<u32>, NoMemory>
    requires in_range { (x : ℕ) → has listed.now x ≡ true → x < count }
    requires few { length listed.now ≤ 4096 }
    ensures value { IfOk result (λ places. places.items ≡ map (place_in listed.now) (below count)) }
{
    let mut places = Vec::new(alloc);
    for _ in 0..count {
        places.push(listed.len() as u32)?;
    }
    for place in (0..listed.len()).rev() {
        places[listed[place] as usize] = place as u32;
    }
    Ok(places)
}

// The nodes of the inlets of a code: first the params by place.
pub(crate) fn inlet_nodes_of(
    alloc: Global,
    program: &Program<'_>,
    code: u32,
) -> Result<Vec<u32>, NoMemory>
    requires in_range { code < length program.now.codes }
    ensures value { IfOk result (λ nodes. nodes.items ≡ inlet_nodes program.now (code_of program.now code)) }
{
    let mut nodes = Vec::new(alloc);
    let own = program.graph().code(code);
    for place in 0..own.params() {
        push_found(&mut nodes, program, code, Sought::Param { place })?;
    }
    for (node, line) in own.nodes().iter().enumerate() {
        push_inlets(&mut nodes, program, code, node as u32, line.kind)?;
    }
    Ok(nodes)
}

// Puts the nodes of the inlets that a node brings behind the others: a call its answer and its rets by place, an alloc and a fetch their answers.
fn push_inlets(
    nodes: &mut Vec<u32>,
    program: &Program<'_>,
    code: u32,
    node: u32,
    kind: Kind,
) -> Result<(), NoMemory>
    ensures ok { OnOk result (nodes.new.items ≡ nodes.old.items ++ inlets_at program.now (code_of program.now code) node kind) }
{
    match kind {
        Kind::Call { callee } => {
            nodes.push(node)?;
            push_rets(nodes, program, code, node, callee)
        }
        Kind::Alloc { .. } | Kind::Fetch { .. } => {
            nodes.push(node)?;
            Ok(())
        }
        _ => Ok(()),
    }
}

// Puts the rets of a call behind the others, by place.
fn push_rets(
    nodes: &mut Vec<u32>,
    program: &Program<'_>,
    code: u32,
    call: u32,
    callee: u32,
) -> Result<(), NoMemory>
    ensures ok { OnOk result (nodes.new.items ≡ nodes.old.items ++ rets_of (code_of program.now code) call (results_of (code_of program.now callee))) }
{
    if callee >= program.graph().codes() {
        return Ok(());
    }
    for place in 0..program.graph().code(callee).results() {
        push_found(nodes, program, code, Sought::Ret { call, place })?;
    }
    Ok(())
}

// Puts the node that is looked for behind the others.
fn push_found(
    nodes: &mut Vec<u32>,
    program: &Program<'_>,
    code: u32,
    sought: Sought,
) -> Result<(), NoMemory>
    ensures ok { OnOk result (nodes.new.items ≡ nodes.old.items ++ sought_in (code_of program.now code) sought) }
{
    if let Some(node) = find_node(program, code, sought) {
        nodes.push(node)?;
    }
    Ok(())
}

// The conds and switches of a code.
pub(crate) fn choosing_nodes_of(alloc: Global, code: &Code) -> Result<Vec<u32>, NoMemory>
    ensures value { IfOk result (λ nodes. nodes.items ≡ choosing_nodes code.now) }
{
    let mut nodes = Vec::new(alloc);
    for (node, line) in code.nodes().iter().enumerate() {
        if is_choosing(line.kind) {
            nodes.push(node as u32)?;
        }
    }
    Ok(nodes)
}

// Whether such a node is a cond or a switch.
fn is_choosing(kind: Kind) -> bool
    ensures value { result ≡ is_choosing kind }
{
    matches!(kind, Kind::Cond { .. } | Kind::Switch { .. })
}
