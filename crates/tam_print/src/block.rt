// The lines of a code's blocks.
ghost use Rattle.std.specs.Prelude.{ℕ, ◌≡◌, ◌++◌, ◌==◌, length, IfOk, OnOk};
ghost use Rattle.tam_word.specs.Lists.{where_so};
ghost use Rattle.tam_graph.specs.Reading.{IsCodeOfText};
ghost use Rattle.tam_print.specs.BlockLists.{listed, AreBlocks};
ghost use Rattle.tam_print.specs.PrintedLines.{block_text, branches_text};

use crate::line::push_alone;
use crate::node::push_node;
use std::alloc::{AllocError, Global};
use tam_graph::{Code, Graph, Kind};

/// For each block of a code its nodes, rising.
pub fn blocks_of(alloc: Global, code: &Code) -> Result<Vec<Vec<u32>>, AllocError>
    ensures value { IfOk result (λ blocks. AreBlocks code.now blocks.items) }
{
    let nodes = code.nodes();
    let mut blocks = Vec::new(alloc);
    for (x, node) in nodes.iter().enumerate() {
        add(alloc, &mut blocks, node.block, x as u32)?;
    }
    Ok(blocks)
}

// Adds a node to the list of its block.
fn add(alloc: Global, blocks: &mut Vec<Vec<u32>>, block: u32, x: u32) -> Result<(), AllocError>
    ensures ok { OnOk result ((b : ℕ) → listed blocks.new.items b ≡ listed blocks.old.items b ++ where_so (block == b) x) }
{
    while blocks.len() <= block as usize {
        blocks.push(Vec::new(alloc))?;
    }
    let list = &mut blocks[block as usize];
    list.push(x)?;
    Ok(())
}

// The nodes of a block.
fn list_at(blocks: &[Vec<u32>], block: u32) -> &[u32]
    ensures value { result.now ≡ listed blocks.now block }
{
    if block as usize >= blocks.len() {
        return &[];
    }
    &blocks[block as usize]
}

/// Adds the lines of a block and of the blocks in it, which are nested at most so deep.
#[cycle(blocks)]
pub fn push_block(
    text: &mut Vec<u8>,
    g: &Graph,
    code: &Code,
    blocks: &[Vec<u32>],
    block: u32,
    nesting: usize,
) -> Result<(), AllocError>
    requires of_text { IsCodeOfText (length g.now.codes) code.now }
    requires blocks { AreBlocks code.now blocks.now }
    ensures ok { OnOk result (text.new.items ≡ text.old.items ++ block_text g.now code.now nesting block) }
{
    if nesting == 0 {
        return Ok(());
    }
    let nodes = code.nodes();
    let list = list_at(blocks, block);
    for x in list {
        let node = nodes[*x as usize];
        push_node(text, g, code, *x)?;
        push_branches(text, g, code, blocks, node.kind, nesting - 1)?;
    }
    Ok(())
}

// Adds what follows the line of a node: the branches of a cond.
#[cycle(blocks)]
fn push_branches(
    text: &mut Vec<u8>,
    g: &Graph,
    code: &Code,
    blocks: &[Vec<u32>],
    kind: Kind,
    nesting: usize,
) -> Result<(), AllocError>
    requires of_text { IsCodeOfText (length g.now.codes) code.now }
    requires blocks { AreBlocks code.now blocks.now }
    ensures ok { OnOk result (text.new.items ≡ text.old.items ++ branches_text g.now code.now nesting kind) }
{
    match kind {
        Kind::Cond { yes, no, .. } => {
            push_block(text, g, code, blocks, yes, nesting)?;
            push_alone(text, b"else")?;
            push_block(text, g, code, blocks, no, nesting)?;
            push_alone(text, b"end")
        }
        _ => Ok(()),
    }
}
