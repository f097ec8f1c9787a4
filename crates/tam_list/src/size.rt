// The size of a graph.
ghost use Rattle.std.specs.Prelude.{◌≡◌, IfOk};
ghost use Rattle.tam_list.specs.Listings.{check_text};

use crate::counting::{count_blocks, count_vertices};
use crate::text::{push, push_count};
use std::alloc::Global;
use tam_edge::NoMemory;
use tam_graph::Accepted;

/// That a graph is accepted, and how many codes, blocks and vertices it has. The time that this takes is linear in the graph.
///
/// docs/FORMATS.md, "Listings".
pub fn print_check(alloc: Global, g: &Accepted) -> Result<Vec<u8>, NoMemory>
    ensures value { IfOk result (λ text. text.items ≡ check_text g.now) }
{
    let graph = g.graph();
    let mut text = Vec::new(alloc);
    push(&mut text, b"accepted\n")?;
    push_count(&mut text, b"codes", graph.codes())?;
    push_count(&mut text, b"blocks", count_blocks(graph))?;
    push_count(&mut text, b"vertices", count_vertices(graph))?;
    Ok(text)
}
