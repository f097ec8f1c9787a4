// What a node reaches within its block.
ghost use Rattle.std.specs.Prelude.{ℕ, ◌≡◌, ◌<◌, ◌==◌, ◌||◌, false, true, length, IfOk, [], IsTrue};
ghost use Rattle.tam_word.specs.Lists.{any_of};
ghost use Rattle.tam_graph.specs.Edges.{reaches_itself};
ghost use Rattle.tam_graph.specs.Accepted.{value_edges};
ghost use Rattle.tam_check.specs.Sources.{is_marked, unmarked, and_more, takes_marked, is_new, AreReached, AreClosed};

use crate::nodes::{block_at, node_count};
use crate::sources::Sources;
use std::alloc::{AllocError, Global};
use tam_graph::Code;

/// Whether a node reaches itself within a block.
pub fn reaches_itself(alloc: Global, code: &Code, block: usize, x: u32) -> Result<bool, AllocError>
    requires in_range { x < length code.now.nodes }
    ensures value { IfOk result (λ answer. answer ≡ reaches_itself (value_edges code.now block) x) }
{
    let mut marks = vec![in alloc; false; node_count(code) as usize]?;
    let mut grew = true;
    while grew {
        grew = mark_more(code, block, x, &mut marks);
    }
    Ok(is_marked(&marks, x))
}

// Marks the nodes of the block that take what a marked one gives, in one pass, and says whether there were any.
fn mark_more(code: &Code, block: usize, from: u32, marks: &mut [bool]) -> bool
    requires len { length marks.old ≡ length code.now.nodes }
    requires reached { AreReached code.now block from marks.old }
    ensures reached { AreReached code.now block from marks.new }
    ensures closed { result ≡ false → AreClosed code.now block from marks.new }
    ensures fewer { result ≡ true → unmarked marks.new < unmarked marks.old }
    ensures kept { result ≡ false → marks.new ≡ marks.old }
{
    let mut grew = false;
    for y in 0..node_count(code) {
        if is_new(code, block, from, marks, y) {
            marks[y as usize] = true;
            grew = true;
        }
    }
    grew
}

// Whether the node of the block takes what a marked one gives, and isn't marked.
fn is_new(code: &Code, block: usize, from: u32, marks: &[bool], y: u32) -> bool
    ensures value { result ≡ is_new code.now block from marks.now y }
{
    !is_marked(marks, y)
        && block_at(code, y) as usize == block
        && takes_marked(code, from, marks, y)
}

// Whether a source of the node is marked or is where one began.
fn takes_marked(code: &Code, from: u32, marks: &[bool], y: u32) -> bool
    ensures value { result ≡ takes_marked code.now from marks.now y }
{
    let Sources {
        first,
        second,
        third,
    } = Sources::of(code, y);
    is_reached(from, marks, first)
        || is_reached(from, marks, second)
        || is_reached(from, marks, third)
}

// Whether the source, where there is one, is marked or is where one began.
fn is_reached(from: u32, marks: &[bool], source: Option<u32>) -> bool
    ensures value { result ≡ any_of (λ a. (a == from) || is_marked marks.now a) (and_more source []) }
{
    match source {
        Some(a) => a == from || is_marked(marks, a),
        None => false,
    }
}

fn is_marked(marks: &[bool], x: u32) -> bool
    ensures value { result ≡ is_marked marks.now x }
{
    match marks.get(x as usize) {
        Some(mark) => *mark,
        None => false,
    }
}
