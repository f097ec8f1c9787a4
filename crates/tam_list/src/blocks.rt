// What is told of each block of a graph.
ghost use Rattle.std.specs.Prelude.{◌≡◌, ◌<◌, ◌++◌, IfOk, OnOk, length};
ghost use Rattle.tam_graph.specs.Graphs.{code_of};
ghost use Rattle.tam_list.specs.Listings.{sets_text, parts_text, blocks_text, code_text, block_text};
ghost use Rattle.tam_list.specs.Told.{told_of};

use crate::block_classes::push_classes;
use crate::block_sets::push_sets;
use crate::counting::blocks_in;
use crate::text::{push, push_count, push_number};
use crate::told::Told;
use std::alloc::Global;
use tam_edge::NoMemory;
use tam_graph::Accepted;
use tam_split::split;

/// For each vertex of an accepted graph the inlets on which it depends, and the outlets that demand it.
///
/// docs/FORMATS.md, "Listings".
pub fn print_sets(alloc: Global, g: &Accepted) -> Result<Vec<u8>, NoMemory>
    ensures value { IfOk result (λ text. text.items ≡ sets_text g.now) }
{
    print_blocks(alloc, g, Told::Sets)
}

/// The classes of each block of an accepted graph.
///
/// docs/FORMATS.md, "Listings".
pub fn print_parts(alloc: Global, g: &Accepted) -> Result<Vec<u8>, NoMemory>
    ensures value { IfOk result (λ text. text.items ≡ parts_text g.now) }
{
    print_blocks(alloc, g, Told::Classes)
}

// The codes and their blocks, with what is told of each block.
fn print_blocks(alloc: Global, g: &Accepted, told: Told) -> Result<Vec<u8>, NoMemory>
    ensures value { IfOk result (λ text. text.items ≡ blocks_text (told_of told) g.now) }
{
    let mut text = Vec::new(alloc);
    for code in 0..g.graph().codes() {
        push_code(alloc, &mut text, g, told, code)?;
    }
    Ok(text)
}

// Adds a code and its blocks.
fn push_code(
    alloc: Global,
    text: &mut Vec<u8>,
    g: &Accepted,
    told: Told,
    code: u32,
) -> Result<(), NoMemory>
    requires in_range { code < length g.now.codes }
    ensures ok { OnOk result (text.new.items ≡ text.old.items ++ code_text (told_of told) g.now code) }
{
    let named = g.graph().code(code);
    push(text, b"code ")?;
    push_number(text, code)?;
    push(text, b" ")?;
    push(text, named.name().bytes())?;
    push(text, b"\n")?;
    for block in 0..blocks_in(named) {
        push_block(alloc, text, g, told, code, block)?;
    }
    Ok(())
}

// Adds a block and what is told of it.
fn push_block(
    alloc: Global,
    text: &mut Vec<u8>,
    g: &Accepted,
    told: Told,
    code: u32,
    block: u32,
) -> Result<(), NoMemory>
    requires in_range { (code < length g.now.codes) × (block < length (code_of g.now code).owners) }
    ensures ok { OnOk result (text.new.items ≡ text.old.items ++ block_text (told_of told) (code_of g.now code) block) }
{
    push_count(text, b"block", block)?;
    let graph = split(alloc, g, code, block)?;
    match told {
        Told::Sets => push_sets(alloc, text, &graph),
        Told::Classes => push_classes(alloc, text, &graph),
    }
}
