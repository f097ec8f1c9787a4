// The threads of the inlets of a code.
ghost use Rattle.std.specs.Prelude.{ℕ, ◌≡◌, ◌≢◌, ◌<◌, ◌≤◌, true, length, IfOk, slice_index};
ghost use Rattle.tam_graph.specs.Graphs.{kind_at, block_at, is_inlet};
ghost use Rattle.tl0_keep.specs.Compiled.{thread_of_inlet};
ghost use Rattle.tl0_emit.specs.Tables.{AreInletThreads};

use crate::code_blocks::CodeBlocks;
use std::alloc::Global;
use tam_edge::NoMemory;

// The thread of the inlet of each node that has its value from outside.
pub(crate) fn inlet_threads_of(alloc: Global, blocks: &CodeBlocks<'_>) -> Result<Vec<u32>, NoMemory>
    ensures value { IfOk result (λ threads. AreInletThreads blocks.now.code blocks.now.parts threads.items) }
{
    let mut threads = Vec::new(alloc);
    for _ in 0..blocks.code().nodes().len() {
        threads.push(0)?;
    }
    for block in 0..blocks.code().owners().len() {
        set_threads(&mut threads, blocks, block as u32);
    }
    Ok(threads)
}

// Sets the thread of the inlet of each such node of a block.
fn set_threads(threads: &mut [u32], blocks: &CodeBlocks<'_>, block: u32)
    requires in_range { block < length blocks.now.code.owners }
    requires each { length threads.old ≡ length blocks.now.code.nodes }
    ensures each { length threads.new ≡ length threads.old }
    ensures set { (x : ℕ) → x < length blocks.now.code.nodes → is_inlet (kind_at blocks.now.code x) ≡ true → block_at blocks.now.code x ≡ block
        → slice_index threads.new x ≡ thread_of_inlet blocks.now.code blocks.now.parts x }
    ensures kept { (x : ℕ) → block_at blocks.now.code x ≢ block → slice_index threads.new x ≡ slice_index threads.old x }
{
    let vertices = blocks.graph(block).vertices();
    let numbers = blocks.numbers(block);
    let first = blocks.first_thread(block);
    for place in 0..vertices.len() {
        let vertex = vertices[place];
        if vertex.inlet {
            threads[vertex.node as usize] = first + numbers[place];
        }
    }
}
