// How many blocks and vertices there are. No block graph is made for it.
ghost use Rattle.std.specs.Prelude.{◌≡◌, ◌≤◌, length, if◌then◌else◌};
ghost use Rattle.tam_graph.specs.Graphs.{is_split};
ghost use Rattle.tam_graph.specs.Reading.{IsCode};
ghost use Rattle.tam_list.specs.Listings.{blocks_of_graph, vertices_of_code, vertices_of_graph};

use tam_graph::{Code, Graph, Kind};

/// How many blocks a graph has.
pub fn count_blocks(graph: &Graph) -> u32
    ensures value { result ≡ blocks_of_graph graph.now }
{
    let mut count = 0;
    for code in 0..graph.codes() {
        count += blocks_in(graph.code(code));
    }
    count
}

/// How many vertices a graph has.
pub fn count_vertices(graph: &Graph) -> u32
    ensures value { result ≡ vertices_of_graph graph.now }
{
    let mut count = 0;
    for code in 0..graph.codes() {
        count += vertices_in(graph.code(code));
    }
    count
}

/// How many blocks a code has.
pub fn blocks_in(code: &Code) -> u32
    requires of_text { IsCode code.now }
    ensures value { result ≡ length code.now.owners }
    ensures few { result ≤ 2049 }
{
    code.owners().len() as u32
}

// How many vertices a code has.
fn vertices_in(code: &Code) -> u32
    ensures value { result ≡ vertices_of_code code.now }
    ensures few { result ≤ 2048 }
{
    let nodes = code.nodes();
    let mut count = 0;
    for node in nodes {
        count += vertices_of(node.kind);
    }
    count
}

// How many vertices such a node has: an ask and an answer, or one.
fn vertices_of(kind: Kind) -> u32
    ensures value { result ≡ (if is_split kind then 2 else 1) }
{
    match kind {
        Kind::Call { .. } | Kind::Alloc { .. } | Kind::Fetch { .. } => 2,
        _ => 1,
    }
}
