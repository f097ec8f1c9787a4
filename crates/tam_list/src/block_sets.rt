// What each vertex of a block depends on, and what demands it.
ghost use Rattle.std.specs.Prelude.{◌≡◌, ◌<◌, ◌++◌, IfOk, OnOk, length, filter};
ghost use Rattle.tam_word.specs.Lists.{below, has};
ghost use Rattle.tam_split.specs.Blocks.{dependences, demands};
ghost use Rattle.tam_list.specs.Listings.{sets_line, sets_of};

use crate::text::push;
use crate::vertices::{push_place, push_places};
use std::alloc::Global;
use tam_edge::NoMemory;
use tam_reach::{demands, depends};
use tam_sets::Set;
use tam_split::BlockGraph;

/// Adds the lines of a block's vertices.
pub fn push_sets(alloc: Global, text: &mut Vec<u8>, block: &BlockGraph) -> Result<(), NoMemory>
    ensures ok { OnOk result (text.new.items ≡ text.old.items ++ sets_of block.now) }
{
    let inlets = depends(alloc, block)?;
    let outlets = demands(alloc, block)?;
    for place in 0..block.vertices().len() as u32 {
        let at = place as usize;
        push_sets_line(alloc, text, block, place, &inlets[at], &outlets[at])?;
    }
    Ok(())
}

// Adds the line of a vertex, which depends on these inlets and is demanded by these outlets.
fn push_sets_line(
    alloc: Global,
    text: &mut Vec<u8>,
    block: &BlockGraph,
    place: u32,
    inlets: &Set,
    outlets: &Set,
) -> Result<(), NoMemory>
    requires in_range { place < length block.now.vertices }
    requires depends { inlets.now ≡ dependences block.now place }
    requires demands { outlets.now ≡ demands block.now place }
    ensures ok { OnOk result (text.new.items ≡ text.old.items ++ sets_line block.now place) }
{
    push(text, b"vertex ")?;
    push_place(text, block, place)?;
    push(text, b" dep ")?;
    let count = block.vertices().len() as u32;
    push_places(text, block, &members(alloc, inlets, count)?)?;
    push(text, b" dem ")?;
    push_places(text, block, &members(alloc, outlets, count)?)?;
    push(text, b"\n")
}

// The places in a set of places below a number, rising.
fn members(alloc: Global, set: &Set, count: u32) -> Result<Vec<u32>, NoMemory>
    requires below { filter (has set.now) (below count) ≡ set.now }
    ensures value { IfOk result (λ places. places.items ≡ set.now) }
{
    let mut places = Vec::new(alloc);
    for place in 0..count {
        if set.has(place) {
            places.push(place)?;
        }
    }
    Ok(places)
}
