// What a code has by numbers, also by numbers that it lacks.
ghost use Rattle.std.specs.Prelude.{ℕ, ◌≡◌, ◌<◌, ◌≤◌, length, option_to_list};
ghost use Rattle.tam_graph.specs.Graphs.{kind_at, block_at, depth_at, callee_of, owner_of, code_of, params_of, results_of};
ghost use Rattle.tam_graph.specs.Reading.{IsCode};
ghost use Rattle.tam_check.specs.Interfaces.{handed_depth};

use tam_graph::{Code, Graph, Kind};

pub fn node_count(code: &Code) -> u32
    ensures value { result ≡ length code.now.nodes }
    ensures few { result ≤ 1024 }
    ensures of_text { IsCode code.now }
{
    code.nodes().len() as u32
}

/// How many blocks a code has: each node stands in one of them.
pub fn block_count(code: &Code) -> usize
    ensures value { result ≡ length code.now.owners }
    ensures within { (x : ℕ) → x < length code.now.nodes → block_at code.now x < result }
    ensures few { result ≤ 2049 }
    ensures of_text { IsCode code.now }
{
    // What comes with the nodes says that the code is one of a text.
    let _ = code.nodes();
    code.owners().len()
}

pub fn kind_at(code: &Code, x: u32) -> Kind
    ensures value { result ≡ kind_at code.now x }
{
    match code.nodes().get(x as usize) {
        Some(node) => node.kind,
        None => Kind::Enter { place: 0 },
    }
}

pub fn block_at(code: &Code, x: u32) -> u32
    ensures value { result ≡ block_at code.now x }
    ensures of_text { IsCode code.now }
{
    match code.nodes().get(x as usize) {
        Some(node) => node.block,
        None => 0,
    }
}

pub fn depth_at(code: &Code, x: u32) -> u8
    ensures value { result ≡ depth_at code.now x }
{
    match code.nodes().get(x as usize) {
        Some(node) => node.depth,
        None => 0,
    }
}

/// The depth of the value that a node hands over.
pub fn handed_depth(code: &Code, x: u32) -> u8
    ensures value { result ≡ handed_depth code.now x }
{
    match kind_at(code, x) {
        Kind::Give { a, .. } => depth_at(code, a),
        _ => depth_at(code, x),
    }
}

/// The number of the code that a call names.
pub fn callee_of(code: &Code, call: u32) -> u32
    ensures value { result ≡ callee_of code.now call }
{
    match kind_at(code, call) {
        Kind::Call { callee } => callee,
        _ => 0,
    }
}

/// The cond that opens a block.
pub fn owner_of(code: &Code, block: u32) -> Option<u32>
    ensures value { option_to_list result ≡ owner_of code.now block }
{
    match code.owners().get(block as usize) {
        Some(owner) => *owner,
        None => None,
    }
}

/// How many params a code has.
pub fn params_of(graph: &Graph, code: u32) -> u32
    ensures value { result ≡ params_of (code_of graph.now code) }
{
    if code < graph.codes() {
        graph.code(code).params()
    } else {
        0
    }
}

/// How many results a code has.
pub fn results_of(graph: &Graph, code: u32) -> u32
    ensures value { result ≡ results_of (code_of graph.now code) }
{
    if code < graph.codes() {
        graph.code(code).results()
    } else {
        0
    }
}
