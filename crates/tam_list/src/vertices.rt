// Vertices behind a text.
ghost use Rattle.std.specs.Prelude.{◌≡◌, ◌<◌, ◌++◌, OnOk, length};
ghost use Rattle.std.specs.List.{All};
ghost use Rattle.tam_list.specs.Listings.{vertex_text, place_text, marked_text, places_text};

use crate::text::{push, push_number};
use tam_edge::NoMemory;
use tam_split::{BlockGraph, Half, Vertex};

// Adds a vertex: the number of its node, behind it `a` for an ask and `b` for an answer.
fn push_vertex(text: &mut Vec<u8>, vertex: Vertex) -> Result<(), NoMemory>
    ensures ok { OnOk result (text.new.items ≡ text.old.items ++ vertex_text vertex) }
{
    push_number(text, vertex.node)?;
    match vertex.half {
        Half::Whole => Ok(()),
        Half::Ask => push(text, b"a"),
        Half::Answer => push(text, b"b"),
    }
}

/// Adds the vertex at a place of a block.
pub fn push_place(text: &mut Vec<u8>, block: &BlockGraph, place: u32) -> Result<(), NoMemory>
    requires in_range { place < length block.now.vertices }
    ensures ok { OnOk result (text.new.items ≡ text.old.items ++ place_text block.now place) }
{
    push_vertex(text, block.vertices()[place as usize])
}

/// Adds the vertices at places of a block, each behind a mark.
pub fn push_marked(
    text: &mut Vec<u8>,
    mark: &[u8],
    block: &BlockGraph,
    places: &[u32],
) -> Result<(), NoMemory>
    requires in_range { All (λ x. x < length block.now.vertices) places.now }
    ensures ok { OnOk result (text.new.items ≡ text.old.items ++ marked_text mark.now block.now places.now) }
{
    for place in places {
        push(text, mark)?;
        push_place(text, block, *place)?;
    }
    Ok(())
}

/// Adds the vertices at places of a block, joined by commas, or `-` where there is none.
pub fn push_places(text: &mut Vec<u8>, block: &BlockGraph, places: &[u32]) -> Result<(), NoMemory>
    requires in_range { All (λ x. x < length block.now.vertices) places.now }
    ensures ok { OnOk result (text.new.items ≡ text.old.items ++ places_text block.now places.now) }
{
    match places {
        [] => push(text, b"-"),
        [first, rest @ ..] => {
            push_place(text, block, *first)?;
            push_marked(text, b",", block, rest)
        }
    }
}
