// The thread code and the machine code of a graph.
ghost use Rattle.std.specs.Prelude.{◌≡◌, ◌<◌, map, length, IfOk};
ghost use Rattle.tam_graph.specs.Graphs.{code_of, blocks_of};
ghost use Rattle.tam_split.specs.Blocks.{block_graph};
ghost use Rattle.tam_split.specs.Partitions.{partition_of};
ghost use Rattle.tl0_keep.specs.Compiled.{compiled};
ghost use Rattle.rv_keep.specs.Image.{image_of};

use rv_gen::generate;
use rv_image::Image;
use std::alloc::Global;
use tam_edge::NoMemory;
use tam_fits::laws::law_file;
use tam_graph::Accepted;
use tam_part::partition;
use tam_split::{Parts, split};
use tl0_check::Checked0;
use tl0_code::Program0;
use tl0_emit::emit;
use tl0_keep::laws::law_checked;

/// The thread code of an accepted graph, over the partition of each of its blocks.
///
/// docs/THREADS.md, "From graph to threads".
pub fn compile(alloc: Global, g: &Accepted) -> Result<Program0, NoMemory>
    ensures value { IfOk result (λ program. program ≡ compiled g.now) }
{
    let mut parts = Vec::new(alloc);
    for code in 0..g.graph().codes() {
        parts.push(parts_of(alloc, g, code)?)?;
    }
    emit(alloc, g, &parts)
}

/// The machine code of an accepted graph: that of its thread code.
///
/// docs/MACHINE.md, "Machine code".
pub fn compile_image(alloc: Global, g: &Accepted) -> Result<Image, NoMemory>
    ensures value { IfOk result (λ image. image ≡ image_of (compiled g.now)) }
{
    law_checked();
    law_file();
    let _graph = g.graph();
    let code = Checked0::of(compile(alloc, g)?);
    generate(alloc, &code)
}

// The partition of each block of a code.
fn parts_of(alloc: Global, g: &Accepted, code: u32) -> Result<Vec<Parts>, NoMemory>
    requires in_range { code < length g.now.codes }
    ensures value { IfOk result (λ parts. parts.items ≡ map (λ b. partition_of (block_graph (code_of g.now code) b)) (blocks_of (code_of g.now code))) }
{
    let mut parts = Vec::new(alloc);
    for block in 0..g.graph().code(code).owners().len() {
        let graph = split(alloc, g, code, block as u32)?;
        parts.push(partition(alloc, &graph)?)?;
    }
    Ok(parts)
}
